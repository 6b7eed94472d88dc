//! Laws of the log of edits: the library that it leaves, stamps and limits. There is no code: each function here does nothing,
//! and its contract is a law.
#![tactic(auto)]

pub mod log_laws;
