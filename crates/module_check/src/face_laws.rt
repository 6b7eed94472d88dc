//! Faces of one library.

ghost use Rattle.module_check.specs.OneLibrary.{AreCoherentTogether};

use mmt_interface::Faces;

/// Faces that hold verdicts of one library alone, and with each name every present name of its reach, are coherent, as calls that
/// take faces ask.
pub fn law_one_library(faces: &Faces)
    ensures { AreCoherentTogether faces.now }
{}
