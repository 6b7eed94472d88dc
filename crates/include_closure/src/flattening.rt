//! Flat signatures.
ghost use Rattle.std.specs.Prelude.{◌≡◌, ◌∷◌, ◌++◌, [], IfOk, None, OnOk};
ghost use Rattle.lf_meaning.specs.Signatures.{declaration_of};
ghost use Rattle.term_trees.specs.Readings.{read_declaration, read_signature};
ghost use Rattle.library_meaning.specs.Faces as meaning;
ghost use Rattle.library_meaning.specs.Faces.{own_part};
ghost use Rattle.link_laws.proofs.Onces.{Once};
ghost use Rattle.mmt_interface.specs.CoherentFaces.{AreCoherent};
ghost use Rattle.mmt_interface.specs.Readings.{environment_of};

use lf_terms::{FlatDecl, FlatSig, Memory, Name};
use mmt_interface::Faces;
use std::alloc::Global;

/// The flat signature of an accepted theory: the own parts of what it includes, in order, and then its own. Its
/// declarations are copies, which grow with their terms. Of a module that is no accepted theory it is empty. The faces are
/// coherent, so no name comes twice: want of memory is only an allocation that failed.
pub fn flat_of(alloc: Global, faces: &Faces, theory: &Name) -> Result<FlatSig, Memory>
    requires coherent { AreCoherent faces.now }
    ensures { IfOk result (λ signature. read_signature signature ≡ meaning.flat_of (environment_of faces.now) theory.now) }
{
    let mut signature = FlatSig::new(alloc);
    if let Some(face) = faces.theory(theory) {
        for included in face.includes.as_slice() {
            add_own(alloc, faces, &mut signature, included)?;
        }
    }
    add_own(alloc, faces, &mut signature, theory)?;
    Ok(signature)
}

/// Appends the own part of an accepted theory, of which no name is there yet.
fn add_own(
    alloc: Global,
    faces: &Faces,
    signature: &mut FlatSig,
    theory: &Name,
) -> Result<(), Memory>
    requires { Once (read_signature signature.old ++ own_part (environment_of faces.now) theory.now) }
    ensures { OnOk result (read_signature signature.new ≡ read_signature signature.old ++ own_part (environment_of faces.now) theory.now) }
{
    match faces.theory(theory) {
        Some(face) => add_declarations(alloc, signature, &face.own),
        None => Ok(()),
    }
}

/// Appends declarations, of which no name is there yet.
fn add_declarations(alloc: Global, signature: &mut FlatSig, own: &FlatSig) -> Result<(), Memory>
    requires { Once (read_signature signature.old ++ read_signature own.now) }
    ensures { OnOk result (read_signature signature.new ≡ read_signature signature.old ++ read_signature own.now) }
{
    for index in 0..own.len() {
        if let Some(decl) = own.at(index) {
            push_copy(alloc, signature, decl)?;
        }
    }
    Ok(())
}

/// Appends a copy of a declaration of a new name.
fn push_copy(alloc: Global, signature: &mut FlatSig, decl: &FlatDecl) -> Result<(), Memory>
    requires { declaration_of (read_signature signature.old) (read_declaration decl.now).name ≡ None }
    ensures { OnOk result (read_signature signature.new ≡ read_signature signature.old ++ read_declaration decl.now ∷ []) }
{
    match signature.push_new(decl.copy(alloc)?) {
        Ok(()) => Ok(()),
        Err(back) => {
            drop(back);
            Err(Memory)
        }
    }
}
