//! Laws of translation along maps of constants: rows of arguments, composition, and where two maps differ. There is no code: each
//! function here does nothing, and its contract is a law or a worked example.
#![tactic(auto)]

pub mod examples;
pub mod translation_laws;
