//! Trees of expressions, put together from their parts.
ghost use Rattle.std.specs.Prelude.{◌≡◌, IfOk, OnOk};
ghost use Rattle.text_meaning.specs.Grammar as grammar;
ghost use Rattle.text_meaning.specs.Parsing as parsing;
ghost use Rattle.text_meaning.specs.Trees.{ArrowExpr, ThenArg};
ghost use Rattle.mmt_syntax.specs.Readings.{expressions_of, read_arguments, read_expr, read_node, read_span};
ghost use Rattle.twelf_expressions.specs.Frames.{IsBody, IsSpelled, read_atoms, read_binding, read_row, read_some_atoms};

use crate::frame::{Atoms, Binding, Operand, Row, Spelled};
use lf_terms::{Memory, Span};
use mmt_syntax::{Expr, Exprs, Node};
use std::alloc::Global;
use std::mem;

/// From the first byte of one span to the last of another.
pub(crate) fn join(first: Span, last: Span) -> Span
    ensures { read_span result ≡ grammar.join (read_span first) (read_span last) }
{
    Span {
        from: first.from,
        to: last.to,
    }
}

/// The expression that is this node.
pub(crate) fn spelled(span: Span, node: Node) -> Spelled
    ensures { IsSpelled result (read_span span) (read_node node (read_span span)) }
{
    Spelled {
        span,
        tree: Expr { span, node },
    }
}

/// A row of atoms: the first alone, or the first applied to the others.
pub(crate) fn applied(alloc: Global, atoms: Atoms) -> Result<Spelled, Memory>
    ensures { IfOk result (λ w. IsSpelled w (read_span atoms.span)
        (grammar.applied (read_span atoms.span) (read_expr atoms.head) (read_arguments (expressions_of atoms.args)))) }
{
    if atoms.args.len() == 0 {
        return Ok(Spelled {
            span: atoms.span,
            tree: atoms.head,
        });
    }
    let node = Node::App {
        head: Box::new(alloc, atoms.head)?,
        args: atoms.args,
    };
    Ok(spelled(atoms.span, node))
}

/// An operand in its row.
pub(crate) fn in_row(alloc: Global, row: Row, operand: Spelled) -> Result<Spelled, Memory>
    ensures { IfOk result (λ w. IsSpelled w (parsing.row_span (read_row row) (read_span operand.span))
        (parsing.row_tree (read_row row) (read_span operand.span) (read_expr operand.tree))) }
{
    match row {
        Row::Plain => Ok(operand),
        Row::AfterArrow => Ok(operand),
        Row::AfterBack(so_far) => {
            let span = join(so_far.span, operand.span);
            let (body, dom) = boxed(alloc, so_far.tree, operand.tree)?;
            Ok(spelled(span, Node::Back { body, dom }))
        }
    }
}

/// A binder with its body.
pub(crate) fn bound(
    alloc: Global,
    left: Span,
    binding: Binding,
    body: Spelled,
) -> Result<Spelled, Memory>
    ensures { IfOk result (λ w. IsSpelled w (grammar.join (read_span left) (read_span body.span))
        (parsing.bound (grammar.join (read_span left) (read_span body.span)) (read_binding binding) (read_expr body.tree))) }
{
    let span = join(left, body.span);
    let body = Box::new(alloc, body.tree)?;
    match binding {
        Binding::Pi(name, dom) => Ok(spelled(span, Node::Pi { name, dom, body })),
        Binding::Lam(name) => {
            let dom = None;
            Ok(spelled(span, Node::Lam { name, dom, body }))
        }
        Binding::TypedLam(name, dom) => {
            let dom = Some(dom);
            Ok(spelled(span, Node::Lam { name, dom, body }))
        }
    }
}

/// A binder behind atoms, or by itself.
pub(crate) fn behind(
    alloc: Global,
    atoms: Option<Atoms>,
    binder: Spelled,
) -> Result<Spelled, Memory>
    ensures { IfOk result (λ w. IsSpelled w (parsing.last_span (read_atoms atoms) (read_span binder.span))
        (parsing.last_tree (read_atoms atoms) (read_span binder.span) (read_expr binder.tree))) }
{
    match atoms {
        None => Ok(binder),
        Some(atoms) => {
            let span = join(atoms.span, binder.span);
            let args = with_argument(atoms.args, binder.tree)?;
            let head = Box::new(alloc, atoms.head)?;
            Ok(spelled(span, Node::App { head, args }))
        }
    }
}

/// Arguments and one more.
fn with_argument(args: Exprs, argument: Expr) -> Result<Exprs, Memory>
    ensures { IfOk result (λ all. read_arguments (expressions_of all) ≡ ThenArg (read_arguments (expressions_of args)) (read_expr argument)) }
{
    let mut args = args;
    args.add(argument)?;
    Ok(args)
}

/// What a binder without its body waits with, once the body is whole.
pub(crate) fn close_body(
    alloc: Global,
    left: Span,
    binding: Binding,
    operand: &mut Operand,
    body: Spelled,
) -> Result<Spelled, Memory>
    ensures { IfOk result (λ w. IsBody (read_span left) (read_binding binding) operand.old body w) }
{
    let binder = bound(alloc, left, binding, body)?;
    let last = behind(alloc, operand.atoms.take(), binder)?;
    in_row(alloc, mem::replace(&mut operand.row, Row::Plain), last)
}

/// An arrow from one expression to another.
pub(crate) fn arrow(alloc: Global, dom: Spelled, body: Spelled) -> Result<Spelled, Memory>
    ensures { IfOk result (λ w. IsSpelled w (grammar.join (read_span dom.span) (read_span body.span))
        (ArrowExpr (grammar.join (read_span dom.span) (read_span body.span)) (read_expr dom.tree) (read_expr body.tree))) }
{
    let span = join(dom.span, body.span);
    let (dom, body) = boxed(alloc, dom.tree, body.tree)?;
    Ok(spelled(span, Node::Arrow { dom, body }))
}

/// Two expressions, each in a box.
fn boxed(alloc: Global, first: Expr, second: Expr) -> Result<(Box<Expr>, Box<Expr>), Memory>
    ensures { IfOk result (λ both. (both.0.value ≡ first) × (both.1.value ≡ second)) }
{
    let Ok(first) = Box::new(alloc, first) else {
        drop(second);
        return Err(Memory);
    };
    let second = Box::new(alloc, second)?;
    Ok((first, second))
}

/// An atom behind the atoms so far, or by itself. It takes this span.
fn with_atom(alloc: Global, atoms: Option<Atoms>, span: Span, atom: Expr) -> Result<Atoms, Memory>
    ensures { IfOk result (λ all. read_some_atoms all ≡ parsing.add_atom (read_atoms atoms) (read_span span) (read_expr atom)) }
{
    match atoms {
        None => Ok(Atoms {
            span,
            head: atom,
            args: Exprs::new(alloc),
        }),
        Some(atoms) => longer(atoms, span, atom),
    }
}

/// Atoms and one more, which takes this span.
fn longer(atoms: Atoms, span: Span, atom: Expr) -> Result<Atoms, Memory>
    ensures { IfOk result (λ all. read_some_atoms all ≡ parsing.add_atom (read_some_atoms atoms) (read_span span) (read_expr atom)) }
{
    let span = join(atoms.span, span);
    let head = atoms.head;
    let Ok(args) = with_argument(atoms.args, atom) else {
        drop(head);
        return Err(Memory);
    };
    Ok(Atoms { span, head, args })
}

impl Operand {
    /// Adds an atom that takes this span.
    pub(crate) fn add_atom(&mut self, alloc: Global, span: Span, atom: Expr) -> Result<(), Memory>
        ensures atoms { OnOk result (read_atoms self.new.atoms ≡ parsing.add_atom (read_atoms self.old.atoms) (read_span span) (read_expr atom)) }
        ensures row { OnOk result (self.new.row ≡ self.old.row) }
        ensures level { OnOk result (self.new.level.n ≡ self.old.level.n) }
    {
        let atoms = with_atom(alloc, self.atoms.take(), span, atom)?;
        drop(mem::replace(&mut self.atoms, Some(atoms)));
        Ok(())
    }

    /// Adds the atom that is this node.
    pub(crate) fn add_node(&mut self, alloc: Global, span: Span, node: Node) -> Result<(), Memory>
        ensures atoms { OnOk result (read_atoms self.new.atoms ≡ parsing.add_atom (read_atoms self.old.atoms) (read_span span) (read_node node (read_span span))) }
        ensures row { OnOk result (self.new.row ≡ self.old.row) }
        ensures level { OnOk result (self.new.level.n ≡ self.old.level.n) }
    {
        let atom = spelled(span, node);
        self.add_atom(alloc, span, atom.tree)
    }
}
