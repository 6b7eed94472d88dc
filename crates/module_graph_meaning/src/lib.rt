//! Walks along dependencies, grounded names, reach, and subjects: definitions, in `specs/`, one topic a file.
#![tactic(auto)]
