//! What carrying a judgement along a view comes to (Rabe and Kohlhase 2013, section 4).
ghost use Rattle.std.specs.Prelude.{◌≡◌};
ghost use Rattle.mmt_interface.specs.declared.carried.CarryFault.TheVariants.{Memory};

use crate::Rule;
use lf_terms::{Fam, Memory as NoMemory, Obj, Span};
use std::alloc::AllocFailed;

/// A judgement that was carried: an object and its family, over the codomain of the view.
#[derive(Debug, Drop)]
pub struct Carried {
    pub obj: Obj,
    pub fam: Fam,
}

/// Why a judgement is not carried, or want of memory.
#[derive(Debug, Drop)]
pub enum CarryFault {
    /// No accepted view has the name.
    NoView,
    /// The first rule that the text, its family or its object breaks, and the part of the text that breaks it, as bytes of the
    /// text, half open. Where the text does not read (`Syntax`, `TooDeep`, `Unsupported`) the span is empty.
    Ill { span: Span, rule: Rule },
    Memory,
}

impl From<NoMemory> for CarryFault {
    ghost from_gives = { λ _ fault. fault ≡ Memory };

    fn from(_: NoMemory) -> Self {
        CarryFault::Memory
    }
}

impl<T: Drop> From<AllocFailed<T>> for CarryFault {
    ghost from_gives = { λ _ fault. fault ≡ Memory };

    fn from(_: AllocFailed<T>) -> Self {
        CarryFault::Memory
    }
}
