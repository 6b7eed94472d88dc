//! What is counted of a library.
ghost use Rattle.std.specs.Prelude.{◌≡◌, ◌<◌, ◌+◌, ◌-◌, ◌^◌, OnOk};
ghost use Rattle.generator_front.specs.Counted.{counted_more, size_told};

use lf_terms::Memory;
use mmt_interface::{Interface, Verdict};
use verdict_board::Told;

/// The version of a log, and of its library how many modules are accepted and how many are refused, and how many declarations the
/// accepted ones have. Those of a theory are those of its flat signature, and those of a view the assignments of its map.
#[derive(Debug, Drop)]
pub struct Counts {
    pub version: u32,
    pub accepted: u32,
    pub refused: u32,
    pub declarations: u64,
}

/// The number that is told with an accepted module. None where no accepted module is told.
fn size_told(told: &Told<Verdict>) -> Option<u64>
    ensures { result ≡ size_told told.now }
{
    let Told::Verdict { answer, .. } = told else {
        return None;
    };
    match answer {
        Verdict::Accepted(interface) => match interface.get() {
            Interface::Theory { size, .. } => Some(*size),
            Interface::View(face) => Some(face.map.len() as u64),
        },
        Verdict::Refused(_) => None,
    }
}

impl Counts {
    /// Counts a module of which a verdict is told. No memory holds 2^64 declarations, so a sum that is as large would be want of
    /// memory.
    pub(crate) fn count(&mut self, told: &Told<Verdict>) -> Result<(), Memory>
        requires few { self.old.accepted + self.old.refused < 2 ^ 32 - 1 }
        ensures { OnOk result (self.new ≡ counted_more self.old (size_told told.now)) }
    {
        match size_told(told) {
            Some(size) => {
                self.declarations = self.declarations.checked_add(size).ok_or(Memory)?;
                self.accepted += 1;
            }
            None => self.refused += 1,
        }
        Ok(())
    }
}
