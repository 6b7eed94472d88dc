//! Why a text does not read.

ghost use Rattle.std.specs.Prelude.{◌≡◌};
ghost use Rattle.twelf_expressions.specs.declared.fault.ReadFault.TheVariants.{Memory as WantOfMemory};

use lf_terms::Memory;
use std::alloc::{AllocError, AllocFailed};

/// Where reading stops and why, or want of memory. A place is a number of bytes from the beginning of the text.
#[derive(Clone, Copy, Debug, PartialEq, Eq)]
pub enum ReadFault {
    /// No text that reads goes on with this token, or the text has a fault of the lexer here. Where the input ends too
    /// early, the place is its end: that of the text, or the `%.` that ends it.
    Syntax { at: u32 },
    /// An expression stands at nesting 501 here.
    TooDeep { at: u32 },
    /// The same as `Syntax`, where this profile leaves the token out.
    Unsupported { at: u32 },
    /// Want of memory.
    Memory,
}

impl From<Memory> for ReadFault {
    ghost from_gives = { λ _ e. e ≡ WantOfMemory };

    fn from(_: Memory) -> Self {
        ReadFault::Memory
    }
}

impl From<AllocError> for ReadFault {
    ghost from_gives = { λ _ e. e ≡ WantOfMemory };

    fn from(_: AllocError) -> Self {
        ReadFault::Memory
    }
}

impl<T: Drop> From<AllocFailed<T>> for ReadFault {
    ghost from_gives = { λ _ e. e ≡ WantOfMemory };

    fn from(_: AllocFailed<T>) -> Self {
        ReadFault::Memory
    }
}
