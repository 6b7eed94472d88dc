//! Answers that are a value or the first fault: definitions, in `specs/`.
#![tactic(auto)]
