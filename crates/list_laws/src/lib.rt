//! Lemmas on lists, options, booleans and answers that name no type of the crates above, and that the library lacks.
#![tactic(auto)]
