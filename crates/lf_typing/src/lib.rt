//! Laws of typing over the definitions of `lf_meaning`: substitution keeps typing, weakening, unique
//! classifiers, and that judgements hold exactly where they have no first fault. Each law is the contract
//! of a function that does nothing; the statements stand in `specs/`, the proofs in `proofs/`.
#![tactic(auto)]

pub mod fault_laws;
pub mod typing_laws;
