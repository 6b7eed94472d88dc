//! What written names stand for: bound variables, and constants of a theory and of what it includes (this profile).
#![tactic(auto)]

mod bound;
mod constants;
mod included_table;
mod resolution;
mod scope;
mod tabled_scope;

pub use included_table::IncludedTable;
pub use resolution::{resolve, resolve_tabled};
pub use scope::{Found, ResolveFault, Scope, Vars};
pub use tabled_scope::TabledScope;
