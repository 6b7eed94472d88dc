//! A board of verdicts that several threads share: each call takes one turn with the board, and the history is one for all.
#![tactic(auto)]

mod bell;
mod calls;
mod entry;
pub mod job_laws;
mod pace;
mod seated;
mod shared_board;
mod waits;

pub use entry::SeenEntry;
pub use pace::Pace;
pub use seated::{BoardPass, Seated};
pub use shared_board::SharedBoard;
pub use waits::Announced;
