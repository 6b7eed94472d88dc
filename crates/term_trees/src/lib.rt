//! Terms of the logical framework as trees: objects with their heads and arguments, families, kinds and simple types,
//! classifiers and values, declarations and images; and what needs no other crate: copies, raising, erasure, sameness, measures.
#![tactic(auto)]

mod changes;
mod class;
mod erasure;
mod fam;
mod flat_decl;
mod kind;
mod measure;
mod obj;
mod sameness;
mod shift;
mod simple;

pub use changes::{spine_of_all, vec_of_all, with_all, with_head, with_next};
pub use class::{Class, Value};
pub use erasure::erase;
pub use fam::{Ctx, Fam};
pub use flat_decl::{FlatDecl, Image};
pub use kind::Kind;
pub use measure::DEEPEST;
pub use obj::{Head, Obj, Spine};
pub use sameness::{same_class, same_fam, same_kind, same_obj, same_value};
pub use shift::{shift_fam, shift_kind, shift_obj};
pub use simple::Simple;
