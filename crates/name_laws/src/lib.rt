//! Lemmas on names and their byte order.
#![tactic(auto)]
