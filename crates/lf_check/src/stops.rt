//! Faults on their way out of a term.
ghost use Rattle.std.specs.Prelude.{◌≡◌, Option, Some};
ghost use Rattle.lf_meaning.specs.Faults.{Fault};
ghost use Rattle.lf_meaning.specs.Faults as meant;
ghost use Rattle.lf_check.specs.Stops.{kind_of, stopped_by, Checked, Stops};
ghost use Rattle.lf_check.specs.Answers.{fault_of};
ghost use Rattle.lf_check.specs.declared.stops.Stop.TheVariants.{Memory};

use crate::LfFault;
use lf_terms::{Memory as NoMemory, TermPath};
use std::alloc::{AllocFailed, Global};

/// The kinds of faults.
#[derive(Clone, Copy, Debug)]
pub(crate) enum FaultKind {
    UnknownConstant,
    NotAFunction,
    NotCanonical,
    Mismatch,
    Level,
}

/// Why a check stops: for want of memory, or at a fault. The numbers of its place stand from the inside out, so that
/// each step on the way out adds its own at the end, and a check without a fault keeps no path.
#[derive(Debug, Drop)]
pub(crate) enum Stop {
    Memory,
    Fault {
        kind: FaultKind,
        inside_out: Vec<u32>,
    },
}

impl From<NoMemory> for Stop {
    ghost from_gives = { λ _ stop. stop ≡ Memory };

    fn from(_: NoMemory) -> Self {
        Stop::Memory
    }
}

impl<T: Drop> From<AllocFailed<T>> for Stop {
    ghost from_gives = { λ _ stop. stop ≡ Memory };

    fn from(_: AllocFailed<T>) -> Self {
        Stop::Memory
    }
}

impl Stop {
    /// A fault at the term itself.
    pub(crate) fn here(alloc: Global, kind: FaultKind) -> Stop
        ensures { stopped_by result ≡ Some (meant.here (kind_of kind)) }
    {
        Stop::Fault {
            kind,
            inside_out: Vec::new(alloc),
        }
    }

    /// The fault of a part, which has this number in a path.
    pub(crate) fn inside(self, step: usize) -> Stop
        ensures { (first : Option Fault) → Stops self first → Stops result (meant.inside step first) }
    {
        let Ok(number) = u32::try_from(step) else {
            return Stop::Memory;
        };
        match self {
            Stop::Memory => Stop::Memory,
            Stop::Fault {
                kind,
                mut inside_out,
            } => match inside_out.push(number) {
                Ok(()) => Stop::Fault { kind, inside_out },
                Err(_) => Stop::Memory,
            },
        }
    }

    /// The fault with its path from the outside in. It takes no memory.
    pub(crate) fn into_fault(self) -> LfFault
        ensures { fault_of result ≡ stopped_by self }
    {
        let Stop::Fault {
            kind,
            mut inside_out,
        } = self
        else {
            return LfFault::Memory;
        };
        inside_out.reverse();
        let at = TermPath::from_vec(inside_out);
        match kind {
            FaultKind::UnknownConstant => LfFault::UnknownConstant { at },
            FaultKind::NotAFunction => LfFault::NotAFunction { at },
            FaultKind::NotCanonical => LfFault::NotCanonical { at },
            FaultKind::Mismatch => LfFault::Mismatch { at },
            FaultKind::Level => LfFault::Level { at },
        }
    }
}

/// The answer about a part, seen from the whole: the number enters the part.
pub(crate) fn inside(step: usize, checked: Result<(), Stop>) -> Result<(), Stop>
    ensures { (first : Option Fault) → Checked checked first → Checked result (meant.inside step first) }
{
    match checked {
        Ok(()) => Ok(()),
        Err(stop) => Err(stop.inside(step)),
    }
}
