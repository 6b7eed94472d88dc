//! The small types that all crates share: names, paths and names of constants, places in a text, lists, shared values,
//! counted steps, and want of memory.
#![tactic(auto)]

mod digest;
mod lists;
mod memory;
mod name;
mod path;
mod qname;
mod sequence;
mod shared;
mod short;
mod span;
mod steps;

pub use digest::digest_of;
pub use lists::{Bytes, Names, TermPath, Texts};
pub use memory::Memory;
pub use name::{Name, NameFault};
pub use path::Path;
pub use qname::QName;
pub use sequence::Sequence;
pub use shared::Arc;
pub use span::Span;
pub use steps::Steps;
