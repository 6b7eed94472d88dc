//! What a log answers to an edit.
ghost use Rattle.std.specs.Prelude.{◌≡◌};
ghost use Rattle.edit_log.specs.declared.answers.EditFault.TheVariants.{Memory as WantOfMemory};

use lf_terms::Memory;
use std::alloc::{AllocError, AllocFailed};

/// What came of an edit, with the version afterwards. A version is the number of edits made.
#[derive(Clone, Copy, Debug, PartialEq, Eq)]
pub enum Edited {
    /// The edit was made.
    Made(u32),
    /// The library has the name with an equal text. Nothing has changed.
    Same(u32),
    /// The library lacks the name that was to be dropped. Nothing has changed.
    Absent(u32),
}

/// Why an edit was not taken. The log is as before.
#[derive(Clone, Copy, Debug, PartialEq, Eq)]
pub enum EditFault {
    /// 65,536 edits were made, or the text would make the sum of all texts ever put pass 2^28 bytes.
    Full,
    /// The text is longer than 2^20 bytes.
    TooLong,
    /// The name is new, and the library has 4,096 names.
    TooMany,
    /// Want of memory.
    Memory,
}

impl From<Memory> for EditFault {
    ghost from_gives = { λ _ e. e ≡ WantOfMemory };

    fn from(_: Memory) -> Self {
        EditFault::Memory
    }
}
