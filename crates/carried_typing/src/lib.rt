//! What is carried along accepted views is well typed. There is no code: the function here does nothing, and its contract is a
//! law.
#![tactic(auto)]

pub mod carrying_laws;
