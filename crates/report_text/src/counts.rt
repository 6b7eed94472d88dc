//! How many declarations flat signatures have.
ghost use Rattle.std.specs.Prelude.{◌≡◌, length, IfOk};
ghost use Rattle.library_meaning.specs.Faces.{flat_of, flat_signature, own_part};
ghost use Rattle.mmt_interface.specs.Readings.{environment_of, read_theory};

use lf_terms::{Memory, Name};
use mmt_interface::{Faces, TheoryFace};

/// The number of declarations of the flat signature of the theory of this name. Another module has none.
pub(crate) fn theory_count(faces: &Faces, theory: &Name) -> Result<u64, Memory>
    ensures { IfOk result (λ count. count ≡ length (flat_of (environment_of faces.now) theory.now)) }
{
    match faces.theory(theory) {
        Some(face) => flat_count(faces, face),
        None => Ok(0),
    }
}

/// The number of declarations of a theory's flat signature: those of the own parts of what it includes and of its own. No memory
/// holds a flat signature of 2^64 declarations, so a sum that is as large would be want of memory.
pub(crate) fn flat_count(faces: &Faces, face: &TheoryFace) -> Result<u64, Memory>
    ensures { IfOk result (λ count. count ≡ length (flat_signature (environment_of faces.now) (read_theory face.now))) }
{
    let mut count = face.own.len() as u64;
    for included in face.includes.as_slice() {
        count = count.checked_add(own_count(faces, included)).ok_or(Memory)?;
    }
    Ok(count)
}

/// The number of own declarations of the theory of this name. Another module has none.
fn own_count(faces: &Faces, theory: &Name) -> u64
    ensures { result ≡ length (own_part (environment_of faces.now) theory.now) }
{
    match faces.theory(theory) {
        Some(face) => face.own.len() as u64,
        None => 0,
    }
}
