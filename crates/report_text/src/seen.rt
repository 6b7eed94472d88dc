//! From where the terms of a module are seen.
ghost use Rattle.std.specs.Prelude.{◌≡◌, IfOk};
ghost use Rattle.printing_meaning.specs.PrintedTables as printed;
ghost use Rattle.mmt_interface.specs.Readings.{environment_of};
ghost use Rattle.term_text.specs.Readings.{read_seen};

use lf_terms::{FlatSig, Memory, Name};
use mmt_interface::Faces;
use std::alloc::Global;
use term_text::Seen;

/// Terms are seen from the theory of this name. A module that is no accepted theory has no own constants.
pub(crate) fn seen_from<'a>(
    alloc: Global,
    faces: &Faces,
    theory: &'a Name,
) -> Result<Seen<'a>, Memory>
    ensures { IfOk result (λ seen. read_seen seen ≡ printed.seen_from (environment_of faces.now) theory.now) }
{
    match faces.theory(theory) {
        Some(face) => Seen::new(alloc, theory, &face.own),
        None => Seen::new(alloc, theory, &FlatSig::new(alloc)),
    }
}
