//! What is printed of accepted modules, over what is known of a reach. There is no code: the function here does nothing, and its
//! contract is a law.
#![tactic(auto)]

pub mod laws;
