//! Declared constants.
ghost use Rattle.std.specs.Prelude.{◌≡◌, None, OnOk};
ghost use Rattle.std.specs.Option.{option_map};
ghost use Rattle.lf_meaning.specs.Signatures.{declaration_of};
ghost use Rattle.elaborate_meaning.specs.Values.{expand_class, expand_value};
ghost use Rattle.link_meaning.specs.Refusals as refusals;
ghost use Rattle.verdict_meaning.specs.Modules as modules;
ghost use Rattle.term_trees.specs.Readings.{read_class, read_declaration, read_value};
ghost use Rattle.mmt_syntax.specs.Readings.{read_expr, read_written};
ghost use Rattle.mmt_interface.specs.Readings.{read_theory};
ghost use Rattle.names.specs.Readings.{read_tabled};
ghost use Rattle.link_setting.specs.Answers.{Links};
ghost use Rattle.module_verdicts.specs.Steps.{constant_answer, with_declaration};

use crate::fault::labelled;
use crate::used::own_name;
use elaborate::{elab_class_tabled, elab_value_tabled};
use lf_terms::{Class, FlatDecl, Memory, Name, Path, Value};
use link_setting::LinkFault;
use mmt_interface::TheoryFace;
use mmt_syntax::{Expr, Written, first_name};
use names::TabledScope;
use std::alloc::Global;

/// The constant that is declared with this class and this value.
pub(crate) fn constant(
    alloc: Global,
    scope: &TabledScope<'_>,
    theory: &Name,
    name: &Written,
    class: &Expr,
    value: &Option<Expr>,
) -> Result<FlatDecl, LinkFault>
    ensures { Links read_declaration result (constant_answer (read_tabled scope.now) theory.now (read_written name.now) (read_expr class.now) (option_map read_expr value.now)) }
{
    let constant = own_name(alloc, theory, first_name(name))?;
    let class = declared_class(alloc, scope, &name.path, class)?;
    match declared_value(alloc, scope, &name.path, &class, value) {
        Ok(value) => Ok(FlatDecl {
            name: constant,
            class,
            value,
        }),
        Err(fault) => {
            drop(class);
            Err(fault)
        }
    }
}

/// The class that an expression stands for; a fault has the label of the declaration.
fn declared_class(
    alloc: Global,
    scope: &TabledScope<'_>,
    label: &Path,
    class: &Expr,
) -> Result<Class, LinkFault>
    ensures { Links read_class result (refusals.labelled label.now (expand_class (read_tabled scope.now) (read_expr class.now))) }
{
    match elab_class_tabled(alloc, scope, class) {
        Ok(class) => Ok(class),
        Err(fault) => Err(labelled(alloc, fault, label)),
    }
}

/// The value of a declaration that has one.
fn declared_value(
    alloc: Global,
    scope: &TabledScope<'_>,
    label: &Path,
    class: &Class,
    value: &Option<Expr>,
) -> Result<Option<Value>, LinkFault>
    ensures { Links (option_map read_value) result (modules.declared_value (read_tabled scope.now) label.now (read_class class.now) (option_map read_expr value.now)) }
{
    match value {
        Some(value) => match elab_value_tabled(alloc, scope, value, class) {
            Ok(value) => Ok(Some(value)),
            Err(fault) => Err(labelled(alloc, fault, label)),
        },
        None => Ok(None),
    }
}

/// Adds a constant of an unused name to the theory.
pub(crate) fn add(here: &mut TheoryFace, decl: FlatDecl) -> Result<(), Memory>
    requires { declaration_of (read_theory here.old).own (read_declaration decl).name ≡ None }
    ensures { OnOk result (read_theory here.new ≡ with_declaration (read_theory here.old) (read_declaration decl)) }
{
    match here.own.push_new(decl) {
        Ok(()) => Ok(()),
        Err(back) => {
            drop(back);
            Err(Memory)
        }
    }
}
