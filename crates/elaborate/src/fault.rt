//! Why an expression stands for nothing.
ghost use Rattle.std.specs.Prelude.{◌≡◌};
ghost use Rattle.elaborate.specs.declared.fault.ElabFault.TheVariants.{Broken, Memory};

use lf_terms::{Memory as NoMemory, Span};
use mmt_interface::Rule;
use std::alloc::AllocFailed;

/// The first rule that is broken, or want of memory.
#[derive(Debug, Drop)]
pub enum ElabFault {
    /// The rule, and the part of the text that breaks it, as bytes of the text, half open.
    Broken { span: Span, rule: Rule },
    Memory,
}

impl From<NoMemory> for ElabFault {
    ghost from_gives = { λ _ fault. fault ≡ Memory };

    fn from(_: NoMemory) -> Self {
        ElabFault::Memory
    }
}

impl<T: Drop> From<AllocFailed<T>> for ElabFault {
    ghost from_gives = { λ _ fault. fault ≡ Memory };

    fn from(_: AllocFailed<T>) -> Self {
        ElabFault::Memory
    }
}

/// A rule that is broken at a part of the text.
pub(crate) fn broken(span: Span, rule: Rule) -> ElabFault
    ensures { result ≡ Broken span rule }
{
    ElabFault::Broken { span, rule }
}
