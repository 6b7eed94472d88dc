//! Which lists of words are accepted, and what each asks for: definitions, in `specs/`.
#![tactic(auto)]
