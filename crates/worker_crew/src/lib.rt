//! Workers on a shared board, each with a pass and in a thread of its own: they are hired, work until the board is closed, and are
//! dismissed.
#![tactic(auto)]

mod crew;
mod dismissal;
mod each_place;
mod front;
mod hiring;
mod joining;
mod leading;
mod worker;
mod working;

pub use crew::Crew;
pub use dismissal::dismiss;
pub use front::Front;
pub use hiring::hire;
pub use joining::STACK;
pub use leading::{Led, Means, lead};
pub use worker::Worker;
pub use working::work_all;
