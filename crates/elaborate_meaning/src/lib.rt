//! Which term an expression stands for, and the first rule that it breaks: definitions, in `specs/`, one topic a file.
#![tactic(auto)]
