//! The verdict on each module of a library: definitions, in `specs/`, one topic a file.
#![tactic(auto)]
