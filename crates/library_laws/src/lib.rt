//! Laws of resolution, of the inclusion closure and of rows of words. There is no code: each function here does nothing, and its
//! contract is a law or a worked example.
#![tactic(auto)]

pub mod closure_laws;
pub mod examples;
pub mod resolution_laws;
