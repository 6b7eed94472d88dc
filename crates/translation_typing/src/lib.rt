//! Translation along typed maps, and by simple types alone: along a map of atomic families it renames bases, and along one of
//! typed images it keeps sorts and typing and commutes with raising and substitution. There is no code: each function here does
//! nothing, and its contract is a law.
#![tactic(auto)]

pub mod sort_laws;
pub mod typing_laws;
