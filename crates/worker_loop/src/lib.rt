//! Workers on a shared board: each claims a module that is ready, judges it, and brings the verdict, until the board is closed.
#![tactic(auto)]

mod all_turns;
mod hall;
mod one_turn;

pub use all_turns::work;
pub use hall::Hall;
pub use one_turn::{TurnEnd, turn};
