//! Lines and texts as they are printed (this profile). Each call answers whole lines.
#![tactic(auto)]

mod carried;
mod counts;
mod declarations;
mod edits;
mod files;
mod flat;
mod generator;
mod logs;
mod scripts;
mod seen;
mod told;

pub use carried::carry_text;
pub use edits::edit_line;
pub use files::{file_line, files_line};
pub use flat::flat_text;
pub use generator::{gen_line, installs_line};
pub use logs::log_text;
pub use scripts::fault_line;
pub use told::{law_places_in_files, told_line};
