//! The front of a generated library: its edits are made on a shared board one after another, and every module is brought to a verdict
//! behind them.
#![tactic(auto)]

mod counts;
mod edits;
mod lead;
mod settle;
mod verdicts;

pub use counts::Counts;
pub use lead::lead_generator;
