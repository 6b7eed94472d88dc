//! Laws of output with the verdicts of the rules: carrying is translation; worked cases of whole runs. There is no code: each
//! function here does nothing, and its contract is a law or a worked example.
#![tactic(auto)]

pub mod carrying_laws;
pub mod examples;
