//! The board machine, and what histories of it are: definitions, in `specs/`, one topic a file.
#![tactic(auto)]
