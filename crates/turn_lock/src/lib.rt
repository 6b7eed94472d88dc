//! A lock whose passes take turns in the order in which they drew tickets. The value under it has entries, each with the number of
//! the pass that made it, and each pass knows which of them it has seen.
#![tactic(auto)]

mod pass;
mod plays;
mod rule;
mod sleepers;
mod steps;
mod story;
mod turns;
mod view;
mod waits;

pub use pass::Pass;
pub use story::Story;
pub use turns::{NewFault, Turns};
