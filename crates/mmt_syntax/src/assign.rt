//! Assignments of structures and views.

use crate::{Expr, Morph, Written};
use lf_terms::Sequence;

/// An assignment of a structure or a view.
#[derive(Debug, Drop)]
pub enum Assign {
    Include(Morph),
    Struct { target: Written, morph: Morph },
    Const { target: Written, value: Expr },
}

/// Assignments.
pub type Assigns = Sequence<Assign>;
