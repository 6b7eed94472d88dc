//! The tests of modules that are read, and the interfaces of those that pass them (Rabe and Kohlhase 2013, section 3: theories
//! and views; the order of tests is this profile).
#![tactic(auto)]

mod constants;
mod declarations;
mod due_table;
mod fault;
mod known;
mod modules;
mod sizes;
mod used;

pub use fault::refused;
pub use modules::{tested, written_name};
