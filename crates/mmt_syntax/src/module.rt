//! Modules and judgements.

use crate::{Assigns, Decls, Expr, Written};

/// A view from one theory to another.
#[derive(Debug, Drop)]
pub struct ViewDecl {
    pub name: Written,
    pub domain: Written,
    pub codomain: Written,
    pub assigns: Assigns,
}

/// A theory or a view.
#[derive(Debug, Drop)]
pub enum Module {
    Sig { name: Written, decls: Decls },
    View(ViewDecl),
}

/// An object and the family at which it is judged.
#[derive(Debug, Drop)]
pub struct Judgement {
    pub obj: Expr,
    pub fam: Expr,
}
