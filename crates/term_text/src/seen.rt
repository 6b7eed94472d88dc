//! From where terms are seen.
ghost use Rattle.std.specs.Prelude.{◌≡◌, IfOk};
ghost use Rattle.printing_meaning.specs.Prefixes.{prefix_of};
ghost use Rattle.term_trees.specs.Readings.{read_signature};
ghost use Rattle.term_text.specs.Readings.{read_seen};

use crate::prefixes::prefix;
use lf_terms::{FlatSig, Memory, Name};
use std::alloc::Global;

/// The theory from which terms are seen, and the prefix of the variables that are printed: `x`, and the least number of marks
/// `'` such that no own constant of that theory is one name that begins with the prefix and a digit.
#[derive(Drop)]
pub struct Seen<'a> {
    pub theory: &'a Name,
    pub prefix: Vec<u8>,
}

impl<'a> Seen<'a> {
    /// Terms are seen from the theory of this name with these own constants.
    pub fn new(alloc: Global, theory: &'a Name, own: &FlatSig) -> Result<Seen<'a>, Memory>
        ensures { IfOk result (λ seen. read_seen seen ≡ record { theory = theory.now; prefix = prefix_of (read_signature own.now) }) }
    {
        Ok(Seen {
            theory,
            prefix: prefix(alloc, own)?,
        })
    }
}
