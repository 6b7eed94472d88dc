//! The faces of accepted modules are coherent, and the closures of theories have what is reached by inclusions. There is no
//! code: each function here does nothing, and its contract is a law.
#![tactic(auto)]

pub mod building_laws;
pub mod face_laws;
pub mod inclusion_laws;
