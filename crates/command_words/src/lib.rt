//! The words of the command line: what an accepted list asks for, and the line that answers every other list.
#![tactic(auto)]

mod number;
mod run;
mod task;
mod usage;
mod workers;

pub use run::{Run, run_of};
pub use task::Task;
pub use usage::usage_line;
