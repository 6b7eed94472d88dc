//! Modules as they are written: their trees, what they depend on, and places in their texts.
#![tactic(auto)]

mod assign;
mod decl;
mod dep_iter;
mod expr;
mod file_fault;
mod module;
mod morph;
mod origin;
mod place;
mod written;

pub use assign::{Assign, Assigns};
pub use decl::{Decl, Decls, StructDecl, label};
pub use dep_iter::{DepIter, deps};
pub use expr::{Binder, Expr, Exprs, Node};
pub use file_fault::{FileFault, FileFaults, FileWord};
pub use module::{Judgement, Module, ViewDecl};
pub use morph::Morph;
pub use origin::{Origin, Origins};
pub use place::{Place, place_of};
pub use written::{Words, Written, first_name};
