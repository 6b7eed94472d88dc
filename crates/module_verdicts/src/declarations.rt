//! The declarations of a theory, one after another.
ghost use Rattle.std.specs.Prelude.{OnOk};
ghost use Rattle.std.specs.Option.{option_copied, option_map};
ghost use Rattle.text_meaning.specs.Trees as trees;
ghost use Rattle.verdict_meaning.specs.Modules as modules;
ghost use Rattle.verdict_meaning.specs.Modules.{declare, scope_in};
ghost use Rattle.term_trees.specs.Readings.{read_declaration};
ghost use Rattle.mmt_syntax.specs.Readings.{read_assigns, read_decl, read_decls, read_expr, read_written};
ghost use Rattle.mmt_interface.specs.CoherentFaces.{AreCoherent, IsCoherentHere};
ghost use Rattle.mmt_interface.specs.Readings.{environment_of, read_theory};
ghost use Rattle.include_closure.specs.Inclusions.{Knows};
ghost use Rattle.link_setting.specs.Answers.{Links};
ghost use Rattle.module_verdicts.specs.Answers.{Declares};
ghost use Rattle.module_verdicts.specs.DueTables.{FitsIncludes, KnowsNext};
ghost use Rattle.module_verdicts.specs.Steps.{constant_answer};

use crate::constants::{add, constant};
use crate::due_table::DueTable;
use crate::known::module_test;
use crate::used::unused_test;
use include_closure::Inclusions;
use lf_terms::FlatDecl;
use link_setting::LinkFault;
use mmt_interface::{Faces, TheoryFace};
use mmt_syntax::{Decl, Expr, StructDecl, Written, first_name};
use names::{IncludedTable, Scope, TabledScope};
use std::alloc::Global;
use struct_flatten::flatten;

/// Adds declarations to the theory, in the order of the text, up to the first refusal.
pub(crate) fn declare_all(
    alloc: Global,
    faces: &Faces,
    here: &mut TheoryFace,
    decls: &[Decl],
) -> Result<(), LinkFault>
    requires coherent { AreCoherent faces.now }
    requires here { IsCoherentHere faces.now here.old }
    ensures { Declares result (read_theory here.new) (modules.declare_all (environment_of faces.now) (read_theory here.old) (read_decls decls.now)) }
{
    let mut due = DueTable::new();
    let mut inclusions = Inclusions::new();
    declare_each(alloc, faces, here, &mut due, &mut inclusions, decls)
}

/// The same, with what is kept of the inclusions from one declaration to the next: a table of what the theory includes, once it is
/// due, and what is known of the closure.
fn declare_each(
    alloc: Global,
    faces: &Faces,
    here: &mut TheoryFace,
    due: &mut DueTable,
    inclusions: &mut Inclusions,
    decls: &[Decl],
) -> Result<(), LinkFault>
    requires coherent { AreCoherent faces.now }
    requires here { IsCoherentHere faces.now here.old }
    requires fits { FitsIncludes due.old.table here.old.includes (environment_of faces.now) }
    requires known { Knows inclusions.old here.old.includes }
    ensures { Declares result (read_theory here.new) (modules.declare_all (environment_of faces.now) (read_theory here.old) (read_decls decls.now)) }
{
    for decl in decls {
        declare(alloc, faces, here, due, inclusions, decl)?;
    }
    Ok(())
}

/// Adds a declaration to the theory, if it passes its tests. The theory stays coherent, and the table that of what it includes.
fn declare(
    alloc: Global,
    faces: &Faces,
    here: &mut TheoryFace,
    due: &mut DueTable,
    inclusions: &mut Inclusions,
    decl: &Decl,
) -> Result<(), LinkFault>
    requires coherent { AreCoherent faces.now }
    requires here { IsCoherentHere faces.now here.old }
    requires fits { FitsIncludes due.old.table here.old.includes (environment_of faces.now) }
    requires known { Knows inclusions.old here.old.includes }
    ensures answer { Declares result (read_theory here.new) (modules.declare (environment_of faces.now) (read_theory here.old) (read_decl decl.now)) }
    ensures here { OnOk result (IsCoherentHere faces.now here.new) }
    ensures fits { OnOk result (FitsIncludes due.new.table here.new.includes (environment_of faces.now)) }
    ensures known { OnOk result (Knows inclusions.new here.new.includes) }
{
    due.prepare(alloc, faces, &here.includes, decl)?;
    declare_by_form(alloc, faces, here, due.table(), inclusions, decl)
}

/// The same, form by form, with the table of what the theory includes, if there is one.
fn declare_by_form(
    alloc: Global,
    faces: &Faces,
    here: &mut TheoryFace,
    table: Option<&IncludedTable>,
    inclusions: &mut Inclusions,
    decl: &Decl,
) -> Result<(), LinkFault>
    requires coherent { AreCoherent faces.now }
    requires here { IsCoherentHere faces.now here.old }
    requires fits { FitsIncludes (option_copied table) here.old.includes (environment_of faces.now) }
    requires known { Knows inclusions.old here.old.includes }
    ensures known { OnOk result (KnowsNext inclusions.old inclusions.new here.new.includes (read_decl decl.now)) }
    ensures answer { Declares result (read_theory here.new) (modules.declare (environment_of faces.now) (read_theory here.old) (read_decl decl.now)) }
{
    match decl {
        Decl::Include(theory) => declare_inclusion(alloc, faces, here, inclusions, theory),
        Decl::Struct(structure) => declare_structure(alloc, faces, here, structure),
        Decl::Const { name, class, value } => {
            declare_constant(alloc, faces, here, table, name, class, value)
        }
    }
}

/// Adds what an included theory brings.
fn declare_inclusion(
    alloc: Global,
    faces: &Faces,
    here: &mut TheoryFace,
    inclusions: &mut Inclusions,
    theory: &Written,
) -> Result<(), LinkFault>
    requires coherent { AreCoherent faces.now }
    requires known { Knows inclusions.old here.old.includes }
    ensures known { OnOk result (Knows inclusions.new here.new.includes) }
    ensures answer { Declares result (read_theory here.new) (modules.declare (environment_of faces.now) (read_theory here.old) (trees.IncludeDecl (read_written theory.now))) }
{
    module_test(alloc, faces, &theory.path, theory)?;
    inclusions.add(alloc, faces, &mut here.includes, first_name(theory))?;
    Ok(())
}

/// Adds a constant.
fn declare_constant(
    alloc: Global,
    faces: &Faces,
    here: &mut TheoryFace,
    table: Option<&IncludedTable>,
    name: &Written,
    class: &Expr,
    value: &Option<Expr>,
) -> Result<(), LinkFault>
    requires here { IsCoherentHere faces.now here.old }
    requires fits { FitsIncludes (option_copied table) here.old.includes (environment_of faces.now) }
    ensures { Declares result (read_theory here.new) (modules.declare (environment_of faces.now) (read_theory here.old) (trees.ConstDecl (read_written name.now) (read_expr class.now) (option_map read_expr value.now))) }
{
    unused_test(alloc, here, name)?;
    let decl = constant_in(alloc, faces, here, table, name, class, value)?;
    add(here, decl)?;
    Ok(())
}

/// The constant that is declared with this class and this value in the theory.
fn constant_in(
    alloc: Global,
    faces: &Faces,
    here: &TheoryFace,
    table: Option<&IncludedTable>,
    name: &Written,
    class: &Expr,
    value: &Option<Expr>,
) -> Result<FlatDecl, LinkFault>
    requires { FitsIncludes (option_copied table) here.now.includes (environment_of faces.now) }
    ensures { Links read_declaration result (constant_answer (scope_in (environment_of faces.now) (read_theory here.now)) here.now.name (read_written name.now) (read_expr class.now) (option_map read_expr value.now)) }
{
    let scope = Scope {
        own: &here.own,
        includes: &here.includes,
        faces,
    };
    let tabled = TabledScope::new(scope, table);
    constant(alloc, &tabled, &here.name, name, class, value)
}

/// Adds a structure, flattened.
fn declare_structure(
    alloc: Global,
    faces: &Faces,
    here: &mut TheoryFace,
    decl: &StructDecl,
) -> Result<(), LinkFault>
    requires coherent { AreCoherent faces.now }
    requires here { IsCoherentHere faces.now here.old }
    ensures { Declares result (read_theory here.new) (modules.declare (environment_of faces.now) (read_theory here.old) (trees.StructDecl (read_written decl.now.name) (read_written decl.now.domain) (read_assigns decl.now.assigns))) }
{
    unused_test(alloc, here, &decl.name)?;
    module_test(alloc, faces, &decl.name.path, &decl.domain)?;
    flatten(alloc, faces, here, decl)
}
