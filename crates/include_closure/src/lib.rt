//! Inclusion closures, and flat signatures (Rabe and Kohlhase 2013, section 3: inclusions are transitive; that each theory
//! counts once, behind what it includes, is this profile).
#![tactic(auto)]

mod additions;
mod closure;
mod flattening;
mod inclusions;

pub use closure::{add, sees};
pub use flattening::flat_of;
pub use inclusions::Inclusions;
