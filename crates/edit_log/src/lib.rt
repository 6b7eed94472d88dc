//! The log of the edits made, and the library that it leaves: a text under each name.
#![tactic(auto)]

mod answers;
mod changes;
mod edit;
mod log;

pub use answers::{EditFault, Edited};
pub use edit::Edit;
pub use log::Log;
