//! What makes a module accepted or refused, said with no order of tests. There is no code: each function here does nothing, and
//! its contract is a law.
#![tactic(auto)]

pub mod refusal_laws;
pub mod theory_laws;
pub mod view_laws;
