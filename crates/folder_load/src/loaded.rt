//! What a folder is loaded to.

use edit_log::Log;
use mmt_syntax::{FileFaults, Origins};

/// The log of the modules that were loaded, and where each came from, in the order of the log; the faults of the files that
/// were not loaded, in the order of the files; and how many files there are, those not loaded included.
#[derive(Drop)]
pub struct Loaded {
    pub log: Log,
    pub origins: Origins,
    pub faults: FileFaults,
    pub files: u32,
}
