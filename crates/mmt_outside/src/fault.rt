//! What a call on the outside answers where it did not succeed.
ghost use Rattle.std.specs.Prelude.{◌≡◌};
ghost use Rattle.mmt_outside.specs.declared.fault.OutFault.TheVariants.{Failed as DeviceFailed, Memory as WantOfMemory};

use lf_terms::Memory;

/// The object failed, and its count of faults rose.
#[derive(Clone, Copy, Debug, PartialEq, Eq)]
pub struct Failed;

/// The same, or want of memory.
#[derive(Clone, Copy, Debug, PartialEq, Eq)]
pub enum OutFault {
    Failed,
    Memory,
}

impl From<Memory> for OutFault {
    ghost from_gives = { λ _ e. e ≡ WantOfMemory };

    fn from(_: Memory) -> Self {
        OutFault::Memory
    }
}

impl From<Failed> for OutFault {
    ghost from_gives = { λ _ e. e ≡ DeviceFailed };

    fn from(_: Failed) -> Self {
        OutFault::Failed
    }
}
