//! Why a saved log was not opened.
ghost use Rattle.std.specs.Prelude.{◌≡◌};
ghost use Rattle.saved_log.specs.declared.fault.SaveFault.TheVariants.{Failed as DiskFailed, Memory as WantOfMemory};

use lf_terms::Memory;
use mmt_outside::{Failed, OutFault};

/// Why a saved log was not opened.
#[derive(Clone, Copy, Debug, PartialEq, Eq)]
pub enum SaveFault {
    /// The disk failed, and its count of faults rose.
    Failed,
    /// The file is damaged at this byte, counted from 0.
    Damaged { at: u64 },
    /// Want of memory.
    Memory,
}

impl From<Failed> for SaveFault {
    ghost from_gives = { λ _ fault. fault ≡ DiskFailed };

    fn from(_: Failed) -> Self {
        SaveFault::Failed
    }
}

impl From<Memory> for SaveFault {
    ghost from_gives = { λ _ fault. fault ≡ WantOfMemory };

    fn from(_: Memory) -> Self {
        SaveFault::Memory
    }
}

impl From<OutFault> for SaveFault {
    ghost use Rattle.saved_log.specs.Standing.{fault_of};

    ghost from_gives = { λ fault save. save ≡ fault_of fault };

    fn from(fault: OutFault) -> Self {
        match fault {
            OutFault::Failed => SaveFault::Failed,
            OutFault::Memory => SaveFault::Memory,
        }
    }
}
