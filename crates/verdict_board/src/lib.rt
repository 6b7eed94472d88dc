//! The board of verdicts: edits of a library, claims of modules that are ready to be judged, and the verdicts that stand.
#![tactic(auto)]

mod board;
mod candidates;
mod change;
mod claim;
mod edit;
mod event;
mod gathering;
mod inputs;
mod install;
mod job;
mod marked_names;
mod pending;
mod place_set;
mod replies;
mod report;
mod search;
mod stage;
mod trail;

pub use board::Board;
pub use event::{Entry, Event};
pub use inputs::{Input, Inputs};
pub use job::Job;
pub use replies::{Installed, Told};
