//! What the log of edits means, and the library that it leaves: definitions, in `specs/`, one topic a file.
#![tactic(auto)]
