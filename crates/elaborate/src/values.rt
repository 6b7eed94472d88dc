//! Values that written expressions stand for.
ghost use Rattle.std.specs.Prelude.{◌≡◌, IfOk};
ghost use Rattle.library_meaning.specs.Words as words;
ghost use Rattle.elaborate_meaning.specs.NameHeads.{same_level};
ghost use Rattle.elaborate_meaning.specs.Values.{class_level, expand_family_value};
ghost use Rattle.term_trees.specs.Readings.{read_class, read_declaration, read_family, read_kind, read_value};
ghost use Rattle.mmt_syntax.specs.Readings.{read_expr, read_span};
ghost use Rattle.elaborate.specs.Contexts.{locals_of, scope_of};
ghost use Rattle.elaborate.specs.Steps.{atomic_body_answer, built_answer, named_answer, value_answer};
ghost use Rattle.elaborate.specs.Answers.{Expands};

use crate::context::Context;
use crate::fault::{ElabFault, broken};
use crate::heads::Level;
use crate::terms::{head, name_of, object, written_domain};
use hereditary_subst::domain_count;
use lf_terms::{Class, Fam, FlatDecl, Kind, Memory, Path, Span, Value, same_class};
use lf_translate::{family_value, object_value};
use mmt_interface::Rule;
use mmt_syntax::{Expr, Node};
use std::alloc::Global;

/// The value that an expression stands for at a class: what one name gives, or what is built.
pub(crate) fn value(
    alloc: Global,
    context: &Context<'_>,
    expr: &Expr,
    class: &Class,
) -> Result<Value, ElabFault>
    ensures { Expands read_value result (value_answer (scope_of context.now) (locals_of context.now) (read_expr expr.now) (read_class class.now)) }
{
    match &expr.node {
        Node::Name(path) => named_value(alloc, context, expr.span, path, class),
        _ => built_value(alloc, context, expr, class),
    }
}

/// The value of the declaration that a name stands for, which has just this class: an undefined constant itself, a
/// defined one its value.
fn named_value(
    alloc: Global,
    context: &Context<'_>,
    span: Span,
    path: &Path,
    class: &Class,
) -> Result<Value, ElabFault>
    ensures { Expands read_value result (named_answer (scope_of context.now) (locals_of context.now) (read_span span) path.now (read_class class.now)) }
{
    let decl = context.declaration(span, path)?;
    if !are_of_one_level(&decl.class, class) {
        return Err(broken(span, Rule::Level));
    }
    if !same_class(&decl.class, class) {
        return Err(broken(span, Rule::Mismatch));
    }
    Ok(own_value(alloc, decl)?)
}

/// Whether both are families or both are kinds.
fn are_of_one_level(class: &Class, other: &Class) -> bool
    ensures { result ≡ same_level (class_level (read_class class.now)) (class_level (read_class other.now)) }
{
    match (class, other) {
        (Class::Fam(_), Class::Fam(_)) => true,
        (Class::Kind(_), Class::Kind(_)) => true,
        (Class::Fam(_), Class::Kind(_)) => false,
        (Class::Kind(_), Class::Fam(_)) => false,
    }
}

/// The value of a declaration, or itself where it has none.
fn own_value(alloc: Global, decl: &FlatDecl) -> Result<Value, Memory>
    ensures { IfOk result (λ value. read_value value ≡ words.own_value (read_declaration decl.now) (read_declaration decl.now).value) }
{
    match &decl.value {
        Some(value) => Ok(value.copy(alloc)?),
        None => Ok(Value::Same(decl.name.copy(alloc)?)),
    }
}

/// The value of an expression that is not one name.
fn built_value(
    alloc: Global,
    context: &Context<'_>,
    expr: &Expr,
    class: &Class,
) -> Result<Value, ElabFault>
    ensures { Expands read_value result (built_answer (scope_of context.now) (locals_of context.now) (read_expr expr.now) (read_class class.now)) }
{
    match class {
        Class::Fam(family) => Ok(object_value(object(alloc, context, expr, family)?)),
        Class::Kind(kind) => {
            let body = family_body(alloc, context, expr, kind)?;
            Ok(family_value(domain_count(kind)?, body))
        }
    }
}

/// The body of the family value that an expression stands for at a kind: λs for domains of the kind, and under them a name
/// or an application at the kind that is left.
fn family_body(
    alloc: Global,
    context: &Context<'_>,
    expr: &Expr,
    kind: &Kind,
) -> Result<Fam, ElabFault>
    ensures { Expands read_family result (expand_family_value (scope_of context.now) (locals_of context.now) (read_expr expr.now) (read_kind kind.now)) }
{
    match &expr.node {
        Node::Lam { name, dom, body } => match kind {
            Kind::Pi(domain, rest) => {
                written_domain(alloc, &*context, dom, domain)?;
                family_body(alloc, &(&*context).under(name_of(name), domain), body, rest)
            }
            Kind::Ty => Err(broken(expr.span, Rule::Mismatch)),
        },
        Node::Ty => Err(broken(expr.span, Rule::Level)),
        Node::Pi { .. } => Err(broken(expr.span, Rule::FamilyNotAtomic)),
        Node::Arrow { .. } => Err(broken(expr.span, Rule::FamilyNotAtomic)),
        Node::Back { .. } => Err(broken(expr.span, Rule::FamilyNotAtomic)),
        Node::Name(_) => atomic_body(alloc, &*context, expr, kind),
        Node::App { .. } => atomic_body(alloc, &*context, expr, kind),
    }
}

/// The family that a name or an application stands for at a kind.
fn atomic_body(
    alloc: Global,
    context: &Context<'_>,
    expr: &Expr,
    kind: &Kind,
) -> Result<Fam, ElabFault>
    ensures { Expands read_family result (atomic_body_answer (scope_of context.now) (locals_of context.now) (read_span expr.now.span) (read_expr expr.now) (read_kind kind.now)) }
{
    let head = head(alloc, context, expr, Level::Families)?;
    head.family_at_kind(alloc, expr.span, kind)
}
