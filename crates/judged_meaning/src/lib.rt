//! The output of a run with the verdicts of the rules, and carrying along a view: definitions, in `specs/`.
#![tactic(auto)]
