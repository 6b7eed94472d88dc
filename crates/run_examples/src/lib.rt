//! Worked cases of what a run prints: scripts, folders, the generator, and lists of words. There is no code: each function
//! here does nothing, and its contract is proved by computing.
#![tactic(auto)]

pub mod examples;
