//! A cursor over the tokens of a text, and the reader of expressions over it.
#![tactic(auto)]

mod closing;
mod expecting;
mod expr;
mod fault;
mod frame;
mod level;
mod opening;
mod outline;
mod passing;
mod reader;
mod refusing;
mod taking;
mod tree;

pub use fault::ReadFault;
pub use reader::Reader;
pub use refusing::Spot;
