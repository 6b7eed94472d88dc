//! Laws of walks, grounded names and reach. There is no code: each function here does nothing, and its contract is a law.
#![tactic(auto)]

pub mod walk_laws;
