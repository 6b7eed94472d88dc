//! Laws of raising and hereditary substitution over the definitions of `lf_meaning`: how they pass
//! through each other, that they keep simple types, and that substitutions commute. Each law is the
//! contract of a function that does nothing; the statements stand in `specs/`, the proofs in `proofs/`.
#![tactic(auto)]

pub mod commutation_laws;
pub mod raising_laws;
pub mod sort_laws;
