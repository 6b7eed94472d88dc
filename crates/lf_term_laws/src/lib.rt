//! Laws of the terms, the substitution and the judgements of Canonical LF, one by one: application, rows of arguments taken at
//! once, and equality of trees. There is no code: each function here does nothing, and its contract is a law or a worked example.
#![tactic(auto)]

pub mod application_laws;
pub mod equality_laws;
pub mod examples;
