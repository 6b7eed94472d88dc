//! What tokens spell, what the token machine makes of them, and the one answer that tokens and texts have. There is no code: each
//! function here does nothing, and its contract is a law.
#![tactic(auto)]

pub mod laws;
pub mod tree_laws;
