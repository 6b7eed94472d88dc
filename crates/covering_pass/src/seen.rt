//! What is known of the theories at the ends of a link.
ghost use Rattle.std.specs.Prelude.{◌≡◌};
ghost use Rattle.std.specs.Option.{option_copied};
ghost use Rattle.library_meaning.specs.Faces as meant;
ghost use Rattle.mmt_interface.specs.Readings.{environment_of};
ghost use Rattle.covering_pass.specs.CoverTables.{read_own};

use lf_terms::{FlatSig, Name};
use mmt_interface::Faces;

/// The own part of an accepted theory. None exactly where the module is no accepted theory.
pub(crate) fn own_part<'a>(faces: &'a Faces, theory: &Name) -> Option<&'a FlatSig>
    ensures { read_own (option_copied result) ≡ meant.own_part (environment_of faces.now) theory.now }
{
    match faces.theory(theory) {
        Some(face) => Some(&face.own),
        None => None,
    }
}
