//! Morphism words, and rows of them (Rabe and Kohlhase 2013, section 3: composition of morphisms and structures; which written
//! words there are is this profile).
#![tactic(auto)]

mod fault;
mod inclusions;
mod lent;
mod link;
mod rows;
mod structures;
mod words;

pub use fault::MorphFault;
pub use include_closure::sees;
pub use inclusions::includes;
pub use link::Link;
pub use rows::meaning;
pub use structures::structures_link;
