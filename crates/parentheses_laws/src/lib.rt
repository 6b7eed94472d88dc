//! No text that spells a tree has fewer parentheses than the printed one.
#![tactic(auto)]

pub mod laws;
