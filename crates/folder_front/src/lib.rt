//! The front of a checked folder: its files are loaded and their modules put on a board, each module is brought to a verdict, and
//! the lines are written.
#![tactic(auto)]

mod edits;
mod faults;
mod front;
mod printing;
mod sheet;
mod stop;
mod tally;
mod verdicts;

pub use front::lead_check;
