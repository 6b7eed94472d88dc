//! Worked cases of verdicts, whole libraries from the texts of their modules, of the order of their tests, of what is left short, and
//! one of a board over modules. There is no code: each function here does nothing, and its contract is proved by computing.
#![tactic(auto)]

pub mod examples;
pub mod orders;
pub mod short_terms;
