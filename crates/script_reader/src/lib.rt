//! Reads the commands of a script, one at a time, from a source of bytes; and generates the edits of a library.
#![tactic(auto)]

mod buffer;
mod command;
mod draws;
mod fault;
mod generated;
mod generator;
mod kept;
mod line;
mod next;
mod said;
mod script;
mod text;

pub use command::Command;
pub use fault::ScriptFault;
pub use generator::Gen;
pub use script::Script;
