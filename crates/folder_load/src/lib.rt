//! The library of a folder: its files cut into modules, and these put into a log.
#![tactic(auto)]

mod file;
mod folder;
mod following;
mod loaded;
mod loading;

pub use folder::load;
pub use loaded::Loaded;
