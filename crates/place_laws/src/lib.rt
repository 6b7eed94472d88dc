//! What is read stands within its text. There is no code: each function here does nothing, and its contract is a law.
#![tactic(auto)]

pub mod laws;
