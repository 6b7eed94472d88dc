//! What the terms, the substitution, the judgements and the maps of constants of Canonical LF mean: definitions, in `specs/`, one
//! topic a file.
#![tactic(auto)]
