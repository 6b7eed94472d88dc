//! Laws of certificates over the definitions of `certificate_meaning`: each row is sound, a signature with a certificate is well
//! typed, and a well-typed one with distinct names and normal values has a certificate. Each law is the contract of a function that
//! does nothing; the statements stand in `specs/`, the proofs in `proofs/`.
#![tactic(auto)]

pub mod certificate_theorems;
pub mod examples;
pub mod step_theorems;
pub mod text_theorems;
