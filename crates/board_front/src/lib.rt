//! The front of a shared board of modules: edits are made and answered, and names are brought to verdicts by turns of its own,
//! beside those of workers.
#![tactic(auto)]

mod calls;
mod flats;
mod reading;
mod reports;
mod verdict;

pub use calls::close;
pub use flats::{carry_lines, flat_lines};
pub use module_check::{Mmt, scratch};
pub use reports::{check_lines, edit_lines, make_edit, report_lines};
pub use verdict::told;
pub use worker_loop::Hall;
