//! What theories include.
ghost use Rattle.std.specs.Prelude.{◌≡◌};
ghost use Rattle.library_meaning.specs.Closure.{sees};
ghost use Rattle.library_meaning.specs.Faces.{includes_of, theory_of};
ghost use Rattle.mmt_interface.specs.Readings.{environment_of};

use include_closure::sees;
use lf_terms::Name;
use mmt_interface::Faces;

/// Whether a module is an accepted theory that includes the other one.
pub fn includes(faces: &Faces, theory: &Name, other: &Name) -> bool
    ensures { result ≡ sees (includes_of (theory_of (environment_of faces.now) theory.now)) other.now }
{
    match faces.theory(theory) {
        Some(face) => sees(&face.includes, other),
        None => false,
    }
}
