//! What is promised of terms in memory: substitution keeps typing and commutes, long forms of what is typed check, and typed maps
//! carry typing. There is no code: each function here does nothing and takes no memory, and its contract is a law over what its
//! arguments stand for.
#![tactic(auto)]

mod identity;
mod substitution;
mod translation;

pub use identity::law_identity;
pub use substitution::{law_commute, law_subst};
pub use translation::law_translate;
