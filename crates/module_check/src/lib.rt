//! Verdicts: what a module is judged to be, from its text and the verdicts of what it reaches (this profile).
#![tactic(auto)]

mod answered;
mod cycles;
mod dependencies;
pub mod face_laws;
mod from_scratch;
mod judging;
mod judging_order;
mod known_answers;
mod library_graph;
mod mentions;
mod reading;
mod search;
mod subject;
mod ungrounded;
mod verdicts;

pub use answered::faces_with;
pub use from_scratch::scratch;
pub use judgement_carrying::carry;
pub use judging::judge;
pub use subject::Mmt;
