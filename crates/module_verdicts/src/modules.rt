//! Modules that are read.
ghost use Rattle.std.specs.Prelude.{◌≡◌, None, false, IfOk, length};
ghost use Rattle.name_meaning.specs.Rows.{row_of};
ghost use Rattle.library_meaning.specs.Faces.{flat_signature};
ghost use Rattle.text_meaning.specs.Trees as trees;
ghost use Rattle.verdict_meaning.specs.Modules as modules;
ghost use Rattle.verdict_meaning.specs.Modules.{checked_view};
ghost use Rattle.verdict_meaning.specs.Verdicts as verdicts;
ghost use Rattle.mmt_syntax.specs.Readings.{read_assigns, read_decls, read_module, read_written};
ghost use Rattle.mmt_interface.specs.CoherentFaces.{AreCoherent};
ghost use Rattle.mmt_interface.specs.Readings.{environment_of, read_interface, read_theory, read_view};
ghost use Rattle.link_setting.specs.Answers.{Links};

use crate::declarations::declare_all;
use crate::fault::refused;
use crate::known::module_test;
use crate::sizes::size;
use lf_terms::{FlatSig, Memory, Name, Names};
use link_setting::LinkFault;
use mmt_interface::{Faces, Interface, Rule, Structs, TheoryFace, ViewFace};
use mmt_syntax::{Decls, Module, ViewDecl, Written, first_name};
use std::alloc::Global;
use view_check::check_view;

/// The name with which a module is written.
pub fn written_name(module: &Module) -> &Written
    ensures { read_written result.now ≡ verdicts.written_name (read_module «module».now) }
{
    match module {
        Module::Sig { name, .. } => name,
        Module::View(view) => &view.name,
    }
}

/// The interface of a module that is put under this name, over coherent faces, which do not have the name. `WrongName` comes
/// first; then the declarations are tested in the order of the text.
pub fn tested(
    alloc: Global,
    faces: &Faces,
    name: &Name,
    module: &Module,
) -> Result<Interface, LinkFault>
    requires coherent { AreCoherent faces.now }
    requires absent { row_of faces.now name.now ≡ None }
    ensures { Links read_interface result (verdicts.judge_tree (environment_of faces.now) (λ other. false) name.now (read_module «module».now) false) }
{
    let written = written_name(module);
    if *first_name(written) != *name {
        return Err(refused(alloc, written.span, Rule::WrongName, &written.path));
    }
    checked(alloc, faces, module)
}

/// The interface of a module whose name is the written one.
fn checked(alloc: Global, faces: &Faces, module: &Module) -> Result<Interface, LinkFault>
    requires coherent { AreCoherent faces.now }
    requires absent { row_of faces.now (trees.first_name (verdicts.written_name (read_module «module».now)).path) ≡ None }
    ensures { Links read_interface result (verdicts.checked (environment_of faces.now) (read_module «module».now)) }
{
    match module {
        Module::Sig { name, decls } => theory(alloc, faces, name, decls),
        Module::View(decl) => Ok(Interface::View(view(alloc, faces, decl)?)),
    }
}

/// The interface of a theory with these declarations.
fn theory(
    alloc: Global,
    faces: &Faces,
    name: &Written,
    decls: &Decls,
) -> Result<Interface, LinkFault>
    requires coherent { AreCoherent faces.now }
    requires absent { row_of faces.now (trees.first_name name.now.path) ≡ None }
    ensures { Links read_interface result (verdicts.checked (environment_of faces.now) (trees.SigModule (read_written name.now) (read_decls decls.now))) }
{
    let mut here = empty_theory(alloc, first_name(name))?;
    match declare_all(alloc, faces, &mut here, decls.as_slice()) {
        Ok(()) => Ok(theory_interface(alloc, faces, here)?),
        Err(fault) => {
            drop(here);
            Err(fault)
        }
    }
}

/// The interface of a theory that has all its declarations.
fn theory_interface(alloc: Global, faces: &Faces, here: TheoryFace) -> Result<Interface, Memory>
    ensures { IfOk result (λ interface. read_interface interface ≡ verdicts.Theory (read_theory here) (length (flat_signature (environment_of faces.now) (read_theory here)))) }
{
    match size(faces, &here) {
        Ok(size) => {
            let face = finished(alloc, here)?;
            Ok(Interface::Theory { face, size })
        }
        Err(fault) => {
            drop(here);
            Err(fault)
        }
    }
}

/// The same theory; with its own part stand the images that the identity gives to it, which maps share.
fn finished(alloc: Global, here: TheoryFace) -> Result<TheoryFace, Memory>
    ensures { IfOk result (λ face. read_theory face ≡ read_theory here) }
{
    let mut face = here;
    match face.own.finish(alloc) {
        Ok(()) => Ok(face),
        Err(fault) => {
            drop(face);
            Err(fault)
        }
    }
}

/// The theory before its first declaration.
fn empty_theory(alloc: Global, name: &Name) -> Result<TheoryFace, Memory>
    ensures { IfOk result (λ here. read_theory here ≡ modules.empty_theory name.now) }
{
    Ok(TheoryFace {
        name: name.copy(alloc)?,
        own: FlatSig::new(alloc),
        includes: Names::new(alloc),
        structs: Structs::new(alloc),
    })
}

/// The face of a view, whose ends are accepted theories.
fn view(alloc: Global, faces: &Faces, decl: &ViewDecl) -> Result<ViewFace, LinkFault>
    requires { AreCoherent faces.now }
    ensures { Links read_view result (checked_view (environment_of faces.now) (read_written decl.now.name) (read_written decl.now.domain) (read_written decl.now.codomain) (read_assigns decl.now.assigns)) }
{
    module_test(alloc, faces, &decl.name.path, &decl.domain)?;
    module_test(alloc, faces, &decl.name.path, &decl.codomain)?;
    check_view(alloc, faces, decl)
}
