//! Expressions.
ghost use Rattle.std.specs.Prelude.{◌≡◌, ◌++◌, IfOk, OnOk, true};
ghost use Rattle.text_meaning.specs.Trees.{AppExpr, PiExpr, LamExpr, TypedLamExpr, ArrowExpr, BackExpr};
ghost use Rattle.text_meaning.specs.UpToSpans.{no_span};
ghost use Rattle.mmt_syntax.specs.Readings.{read_binder, read_expr, read_arguments, expressions_of};
ghost use Rattle.print_meaning.specs.PrintedItems.{text_of};
ghost use Rattle.print_meaning.specs.PrintedExpressions.{binder_bytes, expr_items, args_items};
ghost use Rattle.print_meaning.specs.PrintedModules.{expr_text};
ghost use Rattle.print_laws.specs.PrintLaws.{IsSpelledExpr, SpellsBackExpr, SpellsBackWithin};
ghost use Rattle.parentheses_laws.specs.FewestParentheses.{HasFewestOfExpr};

use crate::paths::{path, word};
use crate::places::{
    close, inner, inner_free, is_argument, is_body, is_front, is_last, is_operand, is_word, open,
};
use lf_terms::{Bytes, Memory};
use mmt_syntax::{Binder, Expr, Exprs, Node};
use std::alloc::Global;

/// The text of an expression, without parentheses around the whole. Wherever the expression is one that some text
/// spells, this text spells it up to spans, and no text that spells it has fewer parentheses. Within a judgement it is
/// read again as that expression where nothing stands deeper than 500. It recurses as deep as the expression is nested.
pub fn print_expr(alloc: Global, expr: &Expr) -> Result<Bytes, Memory>
    ensures text { IfOk result (λ text. text ≡ expr_text (read_expr expr.now)) }
    ensures spells { IfOk result (λ text. IsSpelledExpr (read_expr expr.now) → SpellsBackExpr text (read_expr expr.now)) }
    ensures within { IfOk result (λ text. IsSpelledExpr (read_expr expr.now) → SpellsBackWithin text (read_expr expr.now)) }
    ensures fewest { IfOk result (λ text. IsSpelledExpr (read_expr expr.now) → HasFewestOfExpr text (read_expr expr.now)) }
{
    let mut out = Bytes::new(alloc);
    expression(&mut out, expr, true, b"")?;
    Ok(out)
}

/// Writes an expression without parentheses around the whole, and the gap behind. Where it is free, nothing follows
/// that a Π or λ at its end could take in.
#[cycle(printing)]
pub(crate) fn expression(out: &mut Bytes, expr: &Expr, free: bool, gap: &[u8]) -> Result<(), Memory>
    ensures ok { OnOk result (out.new ≡ out.old ++ text_of (expr_items free (read_expr expr.now) gap.now)) }
{
    match &expr.node {
        Node::Ty => word(out, b"type", gap),
        Node::Name(name) => path(out, name, gap),
        Node::App { head, args } => application(out, head, args, free, gap),
        Node::Pi { name, dom, body } => product(out, name, dom, body, gap),
        Node::Lam { name, dom, body } => match dom {
            None => lambda(out, name, body, gap),
            Some(dom) => typed_lambda(out, name, dom, body, gap),
        },
        Node::Arrow { dom, body } => arrow(out, dom, body, gap),
        Node::Back { body, dom } => back_arrow(out, body, dom, free, gap),
    }
}

/// Writes a head and its arguments.
#[cycle(printing)]
fn application(
    out: &mut Bytes,
    head: &Expr,
    args: &Exprs,
    free: bool,
    gap: &[u8],
) -> Result<(), Memory>
    ensures ok { OnOk result (out.new ≡ out.old ++ text_of (expr_items free (AppExpr no_span (read_expr head.now) (read_arguments (expressions_of args.now))) gap.now)) }
{
    let bare = is_word(head);
    open(out, bare)?;
    expression(out, head, true, inner(bare, b" "))?;
    close(out, bare, b" ")?;
    arguments(out, args, free, gap)
}

/// Writes `{x : A} B`.
#[cycle(printing)]
fn product(
    out: &mut Bytes,
    name: &Binder,
    dom: &Expr,
    body: &Expr,
    gap: &[u8],
) -> Result<(), Memory>
    ensures ok { OnOk result (out.new ≡ out.old ++ text_of (expr_items true (PiExpr no_span (read_binder name.now) (read_expr dom.now) (read_expr body.now)) gap.now)) }
{
    out.extend(b"{")?;
    binder(out, name, b" ")?;
    out.extend(b": ")?;
    expression(out, dom, true, b"")?;
    out.extend(b"} ")?;
    expression(out, body, true, gap)
}

/// Writes `[x] B`.
#[cycle(printing)]
fn lambda(out: &mut Bytes, name: &Binder, body: &Expr, gap: &[u8]) -> Result<(), Memory>
    ensures ok { OnOk result (out.new ≡ out.old ++ text_of (expr_items true (LamExpr no_span (read_binder name.now) (read_expr body.now)) gap.now)) }
{
    out.extend(b"[")?;
    binder(out, name, b"")?;
    out.extend(b"] ")?;
    expression(out, body, true, gap)
}

/// Writes `[x : A] B`.
#[cycle(printing)]
fn typed_lambda(
    out: &mut Bytes,
    name: &Binder,
    dom: &Expr,
    body: &Expr,
    gap: &[u8],
) -> Result<(), Memory>
    ensures ok { OnOk result (out.new ≡ out.old ++ text_of (expr_items true (TypedLamExpr no_span (read_binder name.now) (read_expr dom.now) (read_expr body.now)) gap.now)) }
{
    out.extend(b"[")?;
    binder(out, name, b" ")?;
    out.extend(b": ")?;
    expression(out, dom, true, b"")?;
    out.extend(b"] ")?;
    expression(out, body, true, gap)
}

/// Writes `A -> B`.
#[cycle(printing)]
fn arrow(out: &mut Bytes, dom: &Expr, body: &Expr, gap: &[u8]) -> Result<(), Memory>
    ensures ok { OnOk result (out.new ≡ out.old ++ text_of (expr_items true (ArrowExpr no_span (read_expr dom.now) (read_expr body.now)) gap.now)) }
{
    let bare = is_operand(dom);
    open(out, bare)?;
    expression(out, dom, inner_free(bare, false), inner(bare, b" "))?;
    close(out, bare, b" ")?;
    out.extend(b"-> ")?;
    let bare = is_body(body);
    open(out, bare)?;
    expression(out, body, true, inner(bare, gap))?;
    close(out, bare, gap)
}

/// Writes `B <- A`.
#[cycle(printing)]
fn back_arrow(
    out: &mut Bytes,
    body: &Expr,
    dom: &Expr,
    free: bool,
    gap: &[u8],
) -> Result<(), Memory>
    ensures ok { OnOk result (out.new ≡ out.old ++ text_of (expr_items free (BackExpr no_span (read_expr body.now) (read_expr dom.now)) gap.now)) }
{
    let bare = is_front(body);
    open(out, bare)?;
    expression(out, body, inner_free(bare, false), inner(bare, b" "))?;
    close(out, bare, b" ")?;
    out.extend(b"<- ")?;
    let bare = is_last(dom, free);
    open(out, bare)?;
    expression(out, dom, inner_free(bare, free), inner(bare, gap))?;
    close(out, bare, gap)
}

/// Writes arguments, each an atom; where the row is free the last may be a Π or λ as it is.
#[cycle(printing)]
fn arguments(out: &mut Bytes, args: &Exprs, free: bool, gap: &[u8]) -> Result<(), Memory>
    ensures ok { OnOk result (out.new ≡ out.old ++ text_of (args_items free (read_arguments (expressions_of args.now)) gap.now)) }
{
    let Some((last, others)) = args.as_slice().split_last() else {
        return Ok(());
    };
    for arg in others {
        let bare = is_word(arg);
        open(out, bare)?;
        expression(out, arg, true, inner(bare, b" "))?;
        close(out, bare, b" ")?;
    }
    let bare = is_argument(last, free);
    open(out, bare)?;
    expression(out, last, true, inner(bare, gap))?;
    close(out, bare, gap)
}

fn binder(out: &mut Bytes, binder: &Binder, gap: &[u8]) -> Result<(), Memory>
    ensures ok { OnOk result (out.new ≡ out.old ++ (binder_bytes (read_binder binder.now) ++ gap.now)) }
{
    match binder {
        Binder::Named(name) => word(out, name.as_str().as_bytes(), gap),
        Binder::Blank => word(out, b"_", gap),
    }
}
