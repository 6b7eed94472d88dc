//! What is told of modules keeps typing. There is no code: the function here does nothing, and its contract is a law.
#![tactic(auto)]

pub mod typing_laws;
