//! The edits of a run, saved in a file: a crash at any moment keeps each edit that was acknowledged, and the next run goes on from there.
#![tactic(auto)]

mod append;
mod call_record;
mod disk;
mod edits;
mod fault;
mod file_disk;
mod mem_disk;
mod opening;
mod parts;
mod reading;
mod record;
mod saved;

pub use disk::Disk;
pub use fault::SaveFault;
pub use file_disk::FileDisk;
pub use mem_disk::MemDisk;
pub use saved::Saved;
