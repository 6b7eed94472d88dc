//! Objects and families that written expressions stand for.
ghost use Rattle.std.specs.Prelude.{◌≡◌};
ghost use Rattle.std.specs.Option.{option_copied};
ghost use Rattle.translation_meaning.specs.Heads as meant;
ghost use Rattle.elaborate_meaning.specs.Expansion.{expand_arguments, expand_family, expand_head, expand_object};
ghost use Rattle.term_trees.specs.Readings.{read_family, read_object};
ghost use Rattle.mmt_syntax.specs.Readings.{read_arguments, read_binder, read_expr, read_span};
ghost use Rattle.elaborate.specs.Contexts.{locals_of, scope_of};
ghost use Rattle.elaborate.specs.HeadStates.{read_level, Stands};
ghost use Rattle.elaborate.specs.Steps.{applied_answer, applied_family_answer, argument_answer, domain_answer, product_answer, written_of};
ghost use Rattle.elaborate.specs.Answers.{Begins, Expands, Passes};

use crate::context::Context;
use crate::fault::{ElabFault, broken};
use crate::heads::{Head, Level};
use lf_terms::{Fam, Name, Obj, same_fam};
use mmt_interface::Rule;
use mmt_syntax::{Binder, Expr, Node};
use std::alloc::Global;

/// The object that an expression stands for at a family.
#[cycle(expansion)]
pub(crate) fn object(
    alloc: Global,
    context: &Context<'_>,
    expr: &Expr,
    family: &Fam,
) -> Result<Obj, ElabFault>
    ensures { Expands read_object result (expand_object (scope_of context.now) (locals_of context.now) (read_expr expr.now) (read_family family.now)) }
{
    match &expr.node {
        Node::Ty => Err(broken(expr.span, Rule::Level)),
        Node::Pi { .. } => Err(broken(expr.span, Rule::Level)),
        Node::Arrow { .. } => Err(broken(expr.span, Rule::Level)),
        Node::Back { .. } => Err(broken(expr.span, Rule::Level)),
        Node::Lam { name, dom, body } => match family {
            Fam::Pi(domain, codomain) => {
                written_domain(alloc, &*context, dom, domain)?;
                let body = object(
                    alloc,
                    &(&*context).under(name_of(name), domain),
                    body,
                    codomain,
                )?;
                Ok(Obj::Lam(Box::new(alloc, body)?))
            }
            Fam::At { .. } => Err(broken(expr.span, Rule::Mismatch)),
        },
        Node::Name(_) => applied(alloc, &*context, expr, family),
        Node::App { .. } => applied(alloc, &*context, expr, family),
    }
}

/// The object that a name or an application stands for at a family.
#[cycle(expansion)]
fn applied(
    alloc: Global,
    context: &Context<'_>,
    expr: &Expr,
    family: &Fam,
) -> Result<Obj, ElabFault>
    ensures { Expands read_object result (applied_answer (scope_of context.now) (locals_of context.now) (read_span expr.now.span) (read_expr expr.now) (read_family family.now)) }
{
    let head = head(alloc, &*context, expr, Level::Objects)?;
    head.object_at(alloc, expr.span, family)
}

/// Whether the domain of a λ, where one is written, is the expected one.
#[cycle(expansion)]
pub(crate) fn written_domain(
    alloc: Global,
    context: &Context<'_>,
    written: &Option<Box<Expr>>,
    domain: &Fam,
) -> Result<(), ElabFault>
    ensures { Passes result (domain_answer (scope_of context.now) (locals_of context.now) (written_of written.now) (read_family domain.now)) }
{
    let Some(written) = written else {
        return Ok(());
    };
    let found = Box::new(alloc, family(alloc, &*context, written)?)?;
    if same_fam(&found, domain) {
        Ok(())
    } else {
        Err(broken(written.span, Rule::Annotation))
    }
}

/// The head that an expression of this level begins with, which may take further arguments.
#[cycle(expansion)]
pub(crate) fn head<'a>(
    alloc: Global,
    context: &'a Context<'a>,
    expr: &Expr,
    level: Level,
) -> Result<Head<'a>, ElabFault>
    ensures { Begins result (expand_head (read_level level) (scope_of context.now) (locals_of context.now) (read_expr expr.now)) }
{
    match &expr.node {
        Node::Name(path) => context.name_head(alloc, expr.span, path, level),
        Node::App {
            head: function,
            args,
        } => {
            let first = head(alloc, context, function, level)?;
            with_arguments(alloc, &*context, first, args.as_slice())
        }
        Node::Lam { .. } => Err(broken(expr.span, Rule::NotCanonical)),
        Node::Ty => Err(broken(expr.span, Rule::Level)),
        Node::Pi { .. } => Err(broken(expr.span, Rule::Level)),
        Node::Arrow { .. } => Err(broken(expr.span, Rule::Level)),
        Node::Back { .. } => Err(broken(expr.span, Rule::Level)),
    }
}

/// The head with its arguments, which it takes from left to right.
#[cycle(expansion)]
fn with_arguments<'a>(
    alloc: Global,
    context: &Context<'_>,
    first: Head<'a>,
    args: &[Expr],
) -> Result<Head<'a>, ElabFault>
    ensures { (begun : meant.Head) → Stands first.entry begun → Begins result (expand_arguments (scope_of context.now) (locals_of context.now) (read_arguments args.now) begun) }
{
    let roomy = first.with_room(args.len())?;
    let mut head = roomy;
    for argument in args {
        head = with_argument(alloc, &*context, head, argument)?;
    }
    Ok(head)
}

/// The head with one argument more, which stands for an object at the domain of the classifier so far.
#[cycle(expansion)]
fn with_argument<'a>(
    alloc: Global,
    context: &Context<'_>,
    head: Head<'a>,
    argument: &Expr,
) -> Result<Head<'a>, ElabFault>
    ensures { (begun : meant.Head) → Stands head.entry begun → Begins result (argument_answer (scope_of context.now) (locals_of context.now) (read_expr argument.now) begun) }
{
    let Some(domain) = head.classifier.domain() else {
        return Err(broken(argument.span, Rule::NotAFunction));
    };
    let object = object(alloc, &*context, argument, domain)?;
    Ok(head.takes(alloc, object)?)
}

/// The family that an expression stands for.
#[cycle(expansion)]
pub(crate) fn family(alloc: Global, context: &Context<'_>, expr: &Expr) -> Result<Fam, ElabFault>
    ensures { Expands read_family result (expand_family (scope_of context.now) (locals_of context.now) (read_expr expr.now)) }
{
    match &expr.node {
        Node::Pi { name, dom, body } => product(alloc, &*context, name_of(name), dom, body),
        Node::Arrow { dom, body } => product(alloc, &*context, None, dom, body),
        Node::Back { body, dom } => product(alloc, &*context, None, dom, body),
        Node::Ty => Err(broken(expr.span, Rule::Level)),
        Node::Lam { .. } => Err(broken(expr.span, Rule::Level)),
        Node::Name(_) => applied_family(alloc, &*context, expr),
        Node::App { .. } => applied_family(alloc, &*context, expr),
    }
}

/// The family that a name or an application stands for.
#[cycle(expansion)]
fn applied_family(alloc: Global, context: &Context<'_>, expr: &Expr) -> Result<Fam, ElabFault>
    ensures { Expands read_family result (applied_family_answer (scope_of context.now) (locals_of context.now) (read_span expr.now.span) (read_expr expr.now)) }
{
    let head = head(alloc, &*context, expr, Level::Families)?;
    head.family_at_type(alloc, expr.span)
}

/// The Π of a domain and of a body behind it.
#[cycle(expansion)]
fn product(
    alloc: Global,
    context: &Context<'_>,
    name: Option<&Name>,
    dom: &Expr,
    body: &Expr,
) -> Result<Fam, ElabFault>
    ensures { Expands read_family result (product_answer (scope_of context.now) (locals_of context.now) (option_copied name.entry) (read_expr dom.now) (read_expr body.now)) }
{
    let domain = Box::new(alloc, family(alloc, &*context, dom)?)?;
    let body = family(alloc, &(&*context).under(name, &domain), body)?;
    Ok(Fam::Pi(domain, Box::new(alloc, body)?))
}

/// The name of a binder, if it has one.
pub(crate) fn name_of(binder: &Binder) -> Option<&Name>
    ensures { option_copied result ≡ read_binder binder.now }
{
    match binder {
        Binder::Named(name) => Some(name),
        Binder::Blank => None,
    }
}
