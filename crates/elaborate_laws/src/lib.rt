//! The law that ties the function that expands an expression to the relation. There is no code: each function here does nothing,
//! and its contract is a law.
#![tactic(auto)]

pub mod expansion_laws;
