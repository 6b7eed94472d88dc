//! Why a text has no tokens.

ghost use Rattle.std.specs.Prelude.{◌≡◌};
ghost use Rattle.twelf_lexer.specs.declared.fault.LexFault.TheVariants.{Memory as WantOfMemory};

use lf_terms::Memory;

/// A text that has no tokens, or want of memory.
#[derive(Clone, Copy, Debug, PartialEq, Eq)]
pub enum LexFault {
    /// The text is not UTF-8. Its first bad sequence begins here.
    NotUtf8 { at: u32 },
    /// The text is UTF-8, and the outermost comment that begins here has no end.
    OpenComment { at: u32 },
    Memory,
}

impl From<Memory> for LexFault {
    ghost from_gives = { λ _ e. e ≡ WantOfMemory };

    fn from(_: Memory) -> Self {
        LexFault::Memory
    }
}
