//! Structures, flattened into the theory that declares them (Rabe and Kohlhase 2013, section 3).
#![tactic(auto)]

mod induced;
mod structures;

pub use structures::flatten;
