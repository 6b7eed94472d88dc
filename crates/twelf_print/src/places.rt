//! Where an expression stands as it is, and where it needs parentheses.
ghost use Rattle.std.specs.Prelude.{◌≡◌, ◌++◌, OnOk, ◌||◌, ◌&&◌, true, false, if◌then◌else◌};
ghost use Rattle.mmt_syntax.specs.Readings.{read_expr};
ghost use Rattle.print_meaning.specs.PrintedExpressions as printed;
ghost use Rattle.twelf_print.specs.Places.{opening, closing, inner_gap};
ghost use Rattle.twelf_print.specs.Places as places;

use lf_terms::{Bytes, Memory};
use mmt_syntax::{Expr, Node};

/// A name or `type`, which is an atom by itself.
pub(crate) fn is_word(expr: &Expr) -> bool
    ensures { result ≡ printed.is_word (read_expr expr.now) }
{
    matches!(&expr.node, Node::Ty | Node::Name(_))
}

/// An operand of a row of arrows: what stands in front of `->`, and of a further `<-`.
pub(crate) fn is_operand(expr: &Expr) -> bool
    ensures { result ≡ printed.is_operand (read_expr expr.now) }
{
    matches!(&expr.node, Node::Ty | Node::Name(_) | Node::App { .. })
}

/// The front of a row of `<-`: an operand, or such a row.
pub(crate) fn is_front(expr: &Expr) -> bool
    ensures { result ≡ (printed.is_operand (read_expr expr.now) || printed.is_back (read_expr expr.now)) }
{
    matches!(
        &expr.node,
        Node::Ty | Node::Name(_) | Node::App { .. } | Node::Back { .. }
    )
}

/// What may stand behind `->`: everything but a row of `<-`.
pub(crate) fn is_body(expr: &Expr) -> bool
    ensures { result ≡ (if printed.is_back (read_expr expr.now) then false else true) }
{
    !matches!(&expr.node, Node::Back { .. })
}

/// The last operand of a row of `<-`. Where the row is free it may be a Π or a λ as well, which reach to the end.
pub(crate) fn is_last(expr: &Expr, free: bool) -> bool
    ensures { result ≡ (if free then printed.is_last_operand (read_expr expr.now) else printed.is_operand (read_expr expr.now)) }
{
    match &expr.node {
        Node::Ty | Node::Name(_) | Node::App { .. } => true,
        Node::Pi { .. } | Node::Lam { .. } => free,
        _ => false,
    }
}

/// An argument. Where the row is free the last one may be a Π or a λ.
pub(crate) fn is_argument(expr: &Expr, free: bool) -> bool
    ensures { result ≡ (printed.is_word (read_expr expr.now) || (free && printed.is_binding (read_expr expr.now))) }
{
    match &expr.node {
        Node::Ty | Node::Name(_) => true,
        Node::Pi { .. } | Node::Lam { .. } => free,
        _ => false,
    }
}

/// The parenthesis in front of an expression that is not bare.
pub(crate) fn open(out: &mut Bytes, bare: bool) -> Result<(), Memory>
    ensures ok { OnOk result (out.new ≡ out.old ++ opening bare) }
{
    if bare {
        return Ok(());
    }
    out.extend(b"(")
}

/// The parenthesis behind an expression that is not bare, and its gap.
pub(crate) fn close(out: &mut Bytes, bare: bool, gap: &[u8]) -> Result<(), Memory>
    ensures ok { OnOk result (out.new ≡ out.old ++ closing bare gap.now) }
{
    if bare {
        return Ok(());
    }
    out.extend(b")")?;
    out.extend(gap)
}

/// The gap behind an expression itself: none inside of parentheses.
pub(crate) fn inner<'a>(bare: bool, gap: &'a [u8]) -> &'a [u8]
    ensures { result.now ≡ inner_gap bare gap.now }
{
    if bare { gap } else { b"" }
}

/// Whether an expression is free: inside of parentheses it is.
pub(crate) fn inner_free(bare: bool, free: bool) -> bool
    ensures { result ≡ places.inner_free bare free }
{
    if bare { free } else { true }
}
