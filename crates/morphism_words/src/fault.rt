//! Why words are no link.
ghost use Rattle.std.specs.Prelude.{◌≡◌};
ghost use Rattle.morphism_words.specs.declared.fault.MorphFault.TheVariants.{Memory};

use lf_terms::{Memory as NoMemory, Span};
use mmt_interface::Rule;
use std::alloc::AllocFailed;

/// The first word that is no link, or does not follow the words before it; or want of memory. A span is that of the word, as
/// bytes of the text, half open.
#[derive(Debug, Drop)]
pub enum MorphFault {
    /// The module that the word names is absent, of the other kind, or refused.
    Module { span: Span, rule: Rule },
    /// A structure that the word names is not there.
    UnknownMorphism { span: Span },
    /// The codomain of the words before is neither the domain of the word nor included in it.
    Ends { span: Span },
    Memory,
}

impl From<NoMemory> for MorphFault {
    ghost from_gives = { λ _ fault. fault ≡ Memory };

    fn from(_: NoMemory) -> Self {
        MorphFault::Memory
    }
}

impl<T: Drop> From<AllocFailed<T>> for MorphFault {
    ghost from_gives = { λ _ fault. fault ≡ Memory };

    fn from(_: AllocFailed<T>) -> Self {
        MorphFault::Memory
    }
}
