//! Terms, classes and values as they are printed, seen from a theory (this profile). One buffer grows; nothing is printed
//! aside and joined.
#![tactic(auto)]

mod classes;
mod constants;
mod families;
mod objects;
mod prefixes;
mod seen;
mod uses;

pub use classes::{class, value};
pub use constants::{constant, number, path};
pub use families::family;
pub use objects::object;
pub use seen::Seen;
