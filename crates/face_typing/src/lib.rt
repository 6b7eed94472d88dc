//! Faces of accepted modules are well typed, and so are the maps of links that pass all tests. It says this of links between known
//! theories; of a structure, the theory of which is being built, it is a lemma here, and a law of typed faces. There is no code:
//! each function here does nothing, and its contract is a law.
#![tactic(auto)]

pub mod face_laws;
pub mod typing_laws;
