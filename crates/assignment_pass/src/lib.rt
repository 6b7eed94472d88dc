//! The first pass over a link (this profile): what its assignments give.
#![tactic(auto)]

mod assignments;
mod ends;
mod targets;

pub use assignments::read_assigns;
pub use ends::{codomain_sees, is_or_includes};
