//! Where the parts of a tree stand: definitions, in `specs/`.
#![tactic(auto)]
