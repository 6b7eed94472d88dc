//! The laws of the board of verdicts: legal histories, standing verdicts, ready names, installs, the points of calls, and turns of
//! workers; what its machine computes; and worked cases. There is no code: each function here does nothing, and its contract is a law.
#![tactic(auto)]

pub mod examples;
pub mod history_laws;
pub mod point_laws;
pub mod standing_laws;
pub mod turn_laws;
