//! Which rules break, and where: a refusal stands within its text, and a cycle is a refusal of ungrounded modules alone. There is
//! no code: each function here does nothing, and its contract is a law.
#![tactic(auto)]

pub mod fault_laws;
