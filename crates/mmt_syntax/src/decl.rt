//! Declarations of theories.
ghost use Rattle.std.specs.Prelude.{◌≡◌};
ghost use Rattle.text_meaning.specs.Labels.{label_of};
ghost use Rattle.mmt_syntax.specs.Readings.{read_decl};

use crate::{Assigns, Expr, Written};
use lf_terms::{Path, Sequence};

/// A structure: an instance of the theory that is its domain. One without a body has no assignments.
#[derive(Debug, Drop)]
pub struct StructDecl {
    pub name: Written,
    pub domain: Written,
    pub assigns: Assigns,
}

/// A declaration of a theory.
#[derive(Debug, Drop)]
pub enum Decl {
    Include(Written),
    Struct(StructDecl),
    Const {
        name: Written,
        class: Expr,
        value: Option<Expr>,
    },
}

/// Declarations.
pub type Decls = Sequence<Decl>;

/// The label of a declaration: its name, or the included theory's.
pub fn label(decl: &Decl) -> &Path
    ensures { result.now ≡ label_of (read_decl decl.now) }
{
    match decl {
        Decl::Include(theory) => &theory.path,
        Decl::Struct(structure) => &structure.name.path,
        Decl::Const { name, .. } => &name.path,
    }
}
