//! The number of declarations of a flat signature.
ghost use Rattle.std.specs.Prelude.{◌≡◌, IfOk, length};
ghost use Rattle.library_meaning.specs.Faces.{flat_signature, own_part};
ghost use Rattle.mmt_interface.specs.Readings.{environment_of, read_theory};

use lf_terms::{Memory, Name};
use mmt_interface::{Faces, TheoryFace};

/// The number of declarations of the theory's flat signature, which is not made for it. A number that is no `u64` is want of
/// memory.
pub(crate) fn size(faces: &Faces, here: &TheoryFace) -> Result<u64, Memory>
    ensures { IfOk result (λ size. size ≡ length (flat_signature (environment_of faces.now) (read_theory here.now))) }
{
    let mut size = here.own.len() as u64;
    for theory in here.includes.as_slice() {
        size = size.checked_add(own_size(faces, theory)).ok_or(Memory)?;
    }
    Ok(size)
}

/// The number of own declarations of an accepted theory.
fn own_size(faces: &Faces, theory: &Name) -> u64
    ensures { result ≡ length (own_part (environment_of faces.now) theory.now) }
{
    match faces.theory(theory) {
        Some(face) => face.own.len() as u64,
        None => 0,
    }
}
