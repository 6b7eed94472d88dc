//! Laws of whole runs: scripts, folders, and the texts that are kept; and lemmas on lines of scripts and on the texts between them.
//! There is no code: each function here does nothing, and its contract is a law.
#![tactic(auto)]

pub mod run_laws;
