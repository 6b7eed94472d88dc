//! What is seen of a pass of a turn lock, what the calls of the lock do to it, and tests of entries by the numbers that they
//! carry: definitions, in `specs/`. There is no code.
#![tactic(auto)]
