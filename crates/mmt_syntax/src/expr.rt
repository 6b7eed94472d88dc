//! Expressions.
ghost use Rattle.std.specs.Prelude.{◌≡◌, ◌↔◌, ◌≤◌, ◌∷◌, ◌++◌, [], length, slice_get, IfErr, OnErr, OnOk, IsNone};
ghost use Rattle.std.specs.Option.{option_copied};
ghost use Rattle.mmt_syntax.specs.Readings.{expressions_of};

use lf_terms::{Memory, Name, Path, Span};
use std::alloc::Global;

/// The variable of a binder: its name, or `_`.
#[derive(Debug, Drop)]
pub enum Binder {
    Named(Name),
    Blank,
}

/// An expression, from its first token to its last, without parentheses around the whole. Letting one go recurses as
/// deep as it is nested, with a loop over the arguments of an application.
#[cycle(expressions)]
#[derive(Debug, Drop)]
pub struct Expr {
    pub span: Span,
    pub node: Node,
}

/// What an expression is.
#[cycle(expressions)]
#[derive(Debug, Drop)]
pub enum Node {
    Ty,
    Name(Path),
    App {
        head: Box<Expr>,
        args: Exprs,
    },
    Pi {
        name: Binder,
        dom: Box<Expr>,
        body: Box<Expr>,
    },
    Lam {
        name: Binder,
        dom: Option<Box<Expr>>,
        body: Box<Expr>,
    },
    /// `dom -> body`
    Arrow {
        dom: Box<Expr>,
        body: Box<Expr>,
    },
    /// `body <- dom`
    Back {
        body: Box<Expr>,
        dom: Box<Expr>,
    },
}

/// Expressions in order.
#[cycle(expressions)]
#[derive(Debug, Drop)]
pub struct Exprs {
    items: Vec<Expr>,
}

impl Exprs {
    /// No expressions. It takes no memory.
    pub fn new(alloc: Global) -> Self
        ensures { expressions_of result ≡ [] }
    {
        Exprs {
            items: Vec::new(alloc),
        }
    }

    /// Adds an expression at the end, or lets it go for want of memory.
    pub fn add(&mut self, item: Expr) -> Result<(), Memory>
        ensures ok { OnOk result (expressions_of self.new ≡ expressions_of self.old ++ item ∷ []) }
        ensures err { OnErr result (expressions_of self.new ≡ expressions_of self.old) }
    {
        self.make_room()?;
        self.items.push(item)?;
        Ok(())
    }

    /// Makes room for one more where there is none, and for as many as there are: most applications have few arguments.
    fn make_room(&mut self) -> Result<(), Memory>
        ensures { expressions_of self.new ≡ expressions_of self.old }
    {
        let len = self.items.len();
        if len == self.items.capacity() {
            self.items.reserve_exact(len.max(1))?;
        }
        Ok(())
    }

    /// Adds an expression at the end, or hands it back for want of memory.
    pub fn push(&mut self, item: Expr) -> Result<(), Expr>
        ensures ok { OnOk result (expressions_of self.new ≡ expressions_of self.old ++ item ∷ []) }
        ensures err { OnErr result (expressions_of self.new ≡ expressions_of self.old) }
        ensures back { IfErr result (λ back. back ≡ item) }
    {
        match self.items.push(item) {
            Ok(()) => Ok(()),
            Err(failed) => Err(failed.value),
        }
    }

    /// The number of expressions.
    pub fn len(&self) -> usize
        ensures { result ≡ length (expressions_of self.now) }
    {
        self.items.len()
    }

    /// The expression at an index. None exactly where the index is past the end.
    pub fn get(&self, i: usize) -> Option<&Expr>
        ensures item { option_copied result ≡ slice_get (expressions_of self.now) i }
        ensures none { IsNone result ↔ (length (expressions_of self.now) ≤ i) }
    {
        self.items.get(i)
    }

    /// The expressions, in order.
    pub fn as_slice(&self) -> &[Expr]
        ensures { result.now ≡ expressions_of self.now }
    {
        self.items.as_slice()
    }
}
