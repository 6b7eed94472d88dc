//! What structures and views mean: assignments, the four passes, and the equations of a link: definitions, in `specs/`, one topic a
//! file.
#![tactic(auto)]
