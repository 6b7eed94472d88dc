//! Terms, signatures and maps that tests read from texts. A test is then a text, which is cheap to prove.
//!
//! `[x] M` is a λ, `{x:A} B` and `A -> B` are products, `type` is a kind, and a head stands before its arguments, as
//! in `cons n x (nil z)`. A name is that of the nearest binder around it, else that of a free variable, else a
//! constant: of theory `t`, or `T.c` and `T.s.c` of theory T. `#i` is the variable with i binders between it and its own.
#![tactic(auto)]

mod calls;
mod cases;
mod declarations;
mod names;
mod reader;
mod terms;
mod told;

pub use calls::succeeds;
pub use cases::{Case, read_case};
pub use told::{Tells, Told, tell_files};

/// What texts are of, or nothing.
pub mod found {
    pub use crate::declarations::{context, map, signature};
    pub use crate::names::constant;
    pub use crate::terms::{class, family, kind, object, simple, spine, value};
}
