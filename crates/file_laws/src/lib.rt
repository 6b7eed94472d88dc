//! Laws about the division of a file into modules.
#![tactic(auto)]

pub mod laws;
