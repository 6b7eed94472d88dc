//! What modules show to each other: interfaces, refusals, verdicts, and the faces of the modules that are known.
#![tactic(auto)]

mod carried;
mod face;
mod faces;
mod refusal;
mod rule;
mod verdict;

pub use carried::{Carried, CarryFault};
pub use face::{StructFace, Structs, TheoryFace, ViewFace};
pub use faces::{FaceFault, Faces};
pub use refusal::Refusal;
pub use rule::Rule;
pub use verdict::{Interface, Verdict};
