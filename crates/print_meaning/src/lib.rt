//! What a printed module or expression is: definitions, in `specs/`.
#![tactic(auto)]
