//! What the long forms of atomic terms and of values are, and when two values agree: definitions, in `specs/`, one topic a file.
#![tactic(auto)]
