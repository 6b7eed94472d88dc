//! What modules know of each other: environments, resolution, the inclusion closure, words: definitions, in `specs/`, one topic a file.
#![tactic(auto)]
