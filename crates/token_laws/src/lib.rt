//! Laws about the cut of a text into tokens.
#![tactic(auto)]

pub mod laws;
