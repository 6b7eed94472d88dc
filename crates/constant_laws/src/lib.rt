//! What terms hold: raising, substitution, translation and expansion bring no other constants than those of the signatures that
//! they stand over, each at its level. There is no code: each function here does nothing, and its contract is a law.
#![tactic(auto)]

pub mod expansion_laws;
pub mod term_laws;
pub mod translation_laws;
