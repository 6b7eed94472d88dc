//! Why a link is refused.
ghost use Rattle.std.specs.Prelude.{◌≡◌};
ghost use Rattle.link_setting.specs.declared.fault.LinkFault.TheVariants.{Memory};

use lf_terms::Memory as NoMemory;
use mmt_interface::Refusal;
use std::alloc::AllocFailed;

/// The first test of the link that is false, or want of memory.
#[derive(Debug, Drop)]
pub enum LinkFault {
    Broken(Refusal),
    Memory,
}

impl From<NoMemory> for LinkFault {
    ghost from_gives = { λ _ fault. fault ≡ Memory };

    fn from(_: NoMemory) -> Self {
        LinkFault::Memory
    }
}

impl<T: Drop> From<AllocFailed<T>> for LinkFault {
    ghost from_gives = { λ _ fault. fault ≡ Memory };

    fn from(_: AllocFailed<T>) -> Self {
        LinkFault::Memory
    }
}
