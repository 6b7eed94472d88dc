//! Kinds and classes that written expressions stand for.
ghost use Rattle.std.specs.Prelude.{◌≡◌};
ghost use Rattle.std.specs.Option.{option_copied};
ghost use Rattle.elaborate_meaning.specs.Expansion.{expand_kind};
ghost use Rattle.elaborate_meaning.specs.Values as meant;
ghost use Rattle.term_trees.specs.Readings.{read_class, read_kind};
ghost use Rattle.mmt_syntax.specs.Readings.{read_expr};
ghost use Rattle.elaborate.specs.Contexts.{locals_of, scope_of};
ghost use Rattle.elaborate.specs.Steps.{class_answer, kind_product_answer};
ghost use Rattle.elaborate.specs.Answers.{Expands};

use crate::context::Context;
use crate::fault::{ElabFault, broken};
use crate::terms::{family, name_of};
use lf_terms::{Class, Kind, Name};
use mmt_interface::Rule;
use mmt_syntax::{Expr, Node};
use std::alloc::Global;

/// The kind that an expression stands for.
#[cycle(kind_expansion)]
pub(crate) fn kind(alloc: Global, context: &Context<'_>, expr: &Expr) -> Result<Kind, ElabFault>
    ensures { Expands read_kind result (expand_kind (scope_of context.now) (locals_of context.now) (read_expr expr.now)) }
{
    match &expr.node {
        Node::Ty => Ok(Kind::Ty),
        Node::Pi { name, dom, body } => product(alloc, &*context, name_of(name), dom, body),
        Node::Arrow { dom, body } => product(alloc, &*context, None, dom, body),
        Node::Back { body, dom } => product(alloc, &*context, None, dom, body),
        Node::Name(_) => Err(broken(expr.span, Rule::Level)),
        Node::App { .. } => Err(broken(expr.span, Rule::Level)),
        Node::Lam { .. } => Err(broken(expr.span, Rule::Level)),
    }
}

/// The Π kind of a domain and of a kind behind it.
#[cycle(kind_expansion)]
fn product(
    alloc: Global,
    context: &Context<'_>,
    name: Option<&Name>,
    dom: &Expr,
    body: &Expr,
) -> Result<Kind, ElabFault>
    ensures { Expands read_kind result (kind_product_answer (scope_of context.now) (locals_of context.now) (option_copied name.entry) (read_expr dom.now) (read_expr body.now)) }
{
    let domain = Box::new(alloc, family(alloc, &*context, dom)?)?;
    let rest = kind(alloc, &(&*context).under(name, &domain), body)?;
    Ok(Kind::Pi(domain, Box::new(alloc, rest)?))
}

/// Whether the last body of the products is `type`.
fn ends_in_type(expr: &Expr) -> bool
    ensures { result ≡ meant.ends_in_type (read_expr expr.now) }
{
    match &expr.node {
        Node::Ty => true,
        Node::Pi { body, .. } => ends_in_type(body),
        Node::Arrow { body, .. } => ends_in_type(body),
        Node::Back { body, .. } => ends_in_type(body),
        Node::Name(_) => false,
        Node::App { .. } => false,
        Node::Lam { .. } => false,
    }
}

/// The class that an expression stands for: a kind where it ends in `type`, else a family.
pub(crate) fn class(alloc: Global, context: &Context<'_>, expr: &Expr) -> Result<Class, ElabFault>
    ensures { Expands read_class result (class_answer (scope_of context.now) (locals_of context.now) (read_expr expr.now)) }
{
    if ends_in_type(expr) {
        Ok(Class::Kind(kind(alloc, &*context, expr)?))
    } else {
        Ok(Class::Fam(family(alloc, &*context, expr)?))
    }
}
