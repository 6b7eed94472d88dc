//! What printed modules and expressions are, and that they spell what was printed.
#![tactic(auto)]

pub mod laws;
