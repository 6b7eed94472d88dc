//! The program as one call: `run` reads the words of the command line, and plays a script by `session`, checks a folder by
//! `check_folder`, or generates a library by `generate`.
#![tactic(auto)]

mod answer;
mod ended;
mod folder_session;
mod front;
mod generator_session;
mod program;
mod script_front;
mod script_session;
mod speak;

pub use ended::Ended;
pub use folder_session::check_folder;
pub use generator_session::generate;
pub use program::run;
pub use run_status::Status;
pub use script_session::session;
