//! Laws of verdicts: there is one for each present name, it rests on what the module reaches, and what cycles are. There is no
//! code: each function here does nothing, and its contract is a law.
#![tactic(auto)]

pub mod answer_laws;
pub mod verdict_laws;
