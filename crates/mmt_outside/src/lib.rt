//! What the program reaches outside of itself: a source of bytes, a sink for bytes, a folder of files, and a gate
//! that tests may hold. Each is a trait with a written meaning. Sources, sinks and folders count their faults.
#![tactic(auto)]

mod calls;
mod copying;
mod disk_folder;
mod fault;
mod folder;
mod gate;
mod memory_folder;
mod memory_sink;
mod memory_source;
mod numbers;
mod sink;
mod source;
mod standard_input;
mod standard_output;
mod writing;

pub use disk_folder::DiskFolder;
pub use fault::{Failed, OutFault};
pub use folder::{FileBytes, Folder, NoFolder};
pub use gate::{Gate, OpenGate};
pub use memory_folder::{MemFiles, MemFolder};
pub use memory_sink::MemSink;
pub use memory_source::MemSource;
pub use numbers::Inputs64;
pub use sink::Sink;
pub use source::Source;
pub use standard_input::StdSource;
pub use standard_output::StdSink;
pub use writing::write_all;
