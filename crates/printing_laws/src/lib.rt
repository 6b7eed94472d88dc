//! Laws of what is printed: prefixes of variables and numbers. There is no code: each function here does nothing, and its
//! contract is a law or a worked example.
#![tactic(auto)]

pub mod examples;
pub mod printing_laws;
