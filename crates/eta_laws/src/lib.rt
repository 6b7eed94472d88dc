//! Laws of long forms over the definitions of `eta_meaning`: raising and substitution pass through them, that of a variable is the
//! identity, they keep typing, and which values agree. Each law is the contract of a function that does nothing; the statements
//! stand in `specs/`, the proofs in `proofs/`.
#![tactic(auto)]

pub mod examples;
pub mod identity_laws;
pub mod long_term_laws;
pub mod long_value_laws;
