//! Why a call that translates answers nothing.
ghost use Rattle.std.specs.Prelude.{◌≡◌};
ghost use Rattle.lf_translate.specs.declared.fault.TranslateFault.TheVariants.{Memory};

use lf_terms::{Memory as NoMemory, QName};
use std::alloc::AllocFailed;

/// The first constant without an image that stands in what is translated, or want of memory.
#[derive(Debug, Drop)]
pub enum TranslateFault {
    /// Parts are taken from left to right, a head before its arguments, a class before a value.
    Unmapped(QName),
    Memory,
}

impl From<NoMemory> for TranslateFault {
    ghost from_gives = { λ _ fault. fault ≡ Memory };

    fn from(_: NoMemory) -> Self {
        TranslateFault::Memory
    }
}

impl<T: Drop> From<AllocFailed<T>> for TranslateFault {
    ghost from_gives = { λ _ fault. fault ≡ Memory };

    fn from(_: AllocFailed<T>) -> Self {
        TranslateFault::Memory
    }
}
