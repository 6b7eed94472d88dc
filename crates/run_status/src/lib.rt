//! How a run of the program ended, and the last line that it writes.
#![tactic(auto)]

mod last_line;
mod status;

pub use last_line::write_last;
pub use status::Status;
