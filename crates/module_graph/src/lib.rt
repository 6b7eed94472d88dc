//! Graphs of dependencies: what a name reaches, and which names are grounded; and the subjects over which verdicts are given.
#![tactic(auto)]

mod answers;
mod graph;
mod grounding;
mod merging;
mod reaching;
mod subject;
mod ungrounded;

pub use answers::Answers;
pub use graph::Graph;
pub use grounding::grounded;
pub use merging::{merged, with_one};
pub use reaching::{any_reaches, reach};
pub use subject::Subject;
pub use ungrounded::first_ungrounded;
