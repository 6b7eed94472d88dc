//! Laws of translation along maps whose families may be functions, over `FunctionFamilies` of `translation_meaning`: erasure commutes
//! with it, it commutes with raising and substitution, it keeps typing along every typed map, and where each family is atomic it is
//! the translation of `Translation`. Each law is the contract of a function that does nothing; the statements stand in `specs/`,
//! the proofs in `proofs/`.
#![tactic(auto)]

pub mod examples;
pub mod function_translation;
