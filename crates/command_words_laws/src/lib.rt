//! The law of word lists: each list asks for exactly one run, or is answered by exactly the usage line. There is no code: the
//! function here does nothing, and its contract is the law.
#![tactic(auto)]

pub mod word_laws;
