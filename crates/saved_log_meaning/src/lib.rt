//! What the file of a saved log holds, and what a crash may leave of its bytes: definitions, in `specs/`, one topic a file.
#![tactic(auto)]
