//! Tables in byte order of names, for the log of edits, for graphs and for answers.
#![tactic(auto)]

mod table;

pub use table::NameTable;
