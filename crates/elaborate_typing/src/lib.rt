//! What expressions stand for is well typed. There is no code: each function here does nothing, and its contract is a law.
#![tactic(auto)]

pub mod typing_laws;
