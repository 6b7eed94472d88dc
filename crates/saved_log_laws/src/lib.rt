//! Laws of saved logs over the definitions of `saved_log_meaning`: what is written reads back, a file with edits has a last gate at
//! which the next edit goes on, and what a crash during an append may leave. Each law is the contract of a function that does nothing;
//! the statements stand in `specs/`, the proofs in `proofs/`.
#![tactic(auto)]

pub mod append_laws;
pub mod disk_laws;
pub mod disk_states;
pub mod examples;
pub mod record_laws;
pub mod saved_file_laws;
