//! Why a check ends before its last line.
ghost use Rattle.std.specs.Prelude.{◌≡◌};
ghost use Rattle.folder_front.specs.Stops.{by_folder, status_of};
ghost use Rattle.folder_front.specs.declared.stop.Stop.TheVariants.{Write as SinkFailed, Memory as WantOfMemory};

use lf_terms::Memory;
use mmt_outside::{Failed, OutFault};
use run_status::Status;

/// The folder failed, the sink failed, or memory was wanting.
#[derive(Clone, Copy)]
pub(crate) enum Stop {
    Read,
    Write,
    Memory,
}

impl From<Memory> for Stop {
    ghost from_gives = { λ _ stop. stop ≡ WantOfMemory };

    fn from(_: Memory) -> Self {
        Stop::Memory
    }
}

/// A sink has no other fault.
impl From<Failed> for Stop {
    ghost from_gives = { λ _ stop. stop ≡ SinkFailed };

    fn from(_: Failed) -> Self {
        Stop::Write
    }
}

/// A fault of the folder.
impl From<OutFault> for Stop {
    ghost from_gives = { λ fault stop. stop ≡ by_folder fault };

    fn from(fault: OutFault) -> Self {
        match fault {
            OutFault::Failed => Stop::Read,
            OutFault::Memory => Stop::Memory,
        }
    }
}

impl Stop {
    /// The status with which the check ends.
    pub(crate) fn status(self) -> Status
        ensures { result ≡ status_of self }
    {
        match self {
            Stop::Read => Status::ReadFault,
            Stop::Write => Status::WriteFault,
            Stop::Memory => Status::Memory,
        }
    }
}
