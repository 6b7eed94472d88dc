//! Laws of how many verdicts are installed. There is no code: each function here does nothing, and its contract is a law.
#![tactic(auto)]

pub mod install_laws;
