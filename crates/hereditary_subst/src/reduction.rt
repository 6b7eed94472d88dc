//! A value applied hereditarily to arguments.
ghost use Rattle.std.specs.Prelude.{◌≡◌, IfOk, reverse};
ghost use Rattle.hereditary_subst.specs.Codomain.{codomain_of};
ghost use Rattle.lf_meaning.specs.Substitution as meant;
ghost use Rattle.term_trees.specs.Readings.{read_simple, read_object, read_objects};

use crate::substitution::{subst_obj, subst_within};
use lf_terms::{Memory, Obj, Simple};
use std::alloc::Global;

/// The value applied to one argument: a λ at an arrow takes it in its body; an atomic value takes it at the end of its
/// spine; a λ at a base drops it. At most so many calls may stand in one another.
#[cycle(substitution)]
fn apply(
    alloc: Global,
    value: Obj,
    simple: &Simple,
    argument: Obj,
    left: u32,
) -> Result<Obj, Memory>
    ensures { IfOk result (λ m. read_object m ≡ (meant.app (read_simple simple.now) (read_object value) (read_object argument)).value) }
{
    match value {
        Obj::Lam(body) => match simple {
            Simple::Arrow(domain, _) => {
                match subst_within(alloc, &argument, domain, 0, &body, left)? {
                    Some(new) => Ok(new),
                    None => Ok(Box::into_inner(body)),
                }
            }
            Simple::Base(_) => Ok(Obj::Lam(body)),
        },
        Obj::At { head, mut spine } => {
            spine.add(argument)?;
            Ok(Obj::At { head, spine })
        }
    }
}

/// The simple type of a value that took an argument.
fn codomain(simple: &Simple) -> &Simple
    ensures { read_simple result.now ≡ codomain_of (read_simple simple.now) }
{
    match simple {
        Simple::Arrow(_, codomain) => codomain,
        Simple::Base(_) => simple,
    }
}

/// The value applied to arguments, which stand in a vector from the last to the first. At most so many calls may stand in
/// one another.
#[cycle(substitution)]
pub(crate) fn take_all(
    alloc: Global,
    value: Obj,
    simple: &Simple,
    reversed: Vec<Obj>,
    left: u32,
) -> Result<Obj, Memory>
    ensures { IfOk result (λ m. read_object m ≡ meant.reduce (read_object value) (read_simple simple.now) (reverse (read_objects reversed.items))) }
{
    let mut applied = value;
    let mut current = simple;
    let mut rest = reversed;
    while let Some(argument) = rest.pop() {
        applied = apply(alloc, applied, current, argument, left)?;
        current = codomain(current);
    }
    Ok(applied)
}

/// As `apply`, over an argument that stays where it is: it is copied only where it comes to stand on a spine.
fn apply_copied(alloc: Global, value: Obj, simple: &Simple, argument: &Obj) -> Result<Obj, Memory>
    ensures { IfOk result (λ m. read_object m ≡ (meant.app (read_simple simple.now) (read_object value) (read_object argument.now)).value) }
{
    match value {
        Obj::Lam(inner) => match simple {
            Simple::Arrow(domain, _) => subst_obj(alloc, argument, domain, 0, &inner),
            Simple::Base(_) => Ok(Obj::Lam(inner)),
        },
        Obj::At { head, mut spine } => {
            spine.add(argument.copy(alloc)?)?;
            Ok(Obj::At { head, spine })
        }
    }
}

/// The value, at its simple type, applied hereditarily to the whole spine.
pub fn reduce(alloc: Global, value: &Obj, simple: &Simple, spine: &[Obj]) -> Result<Obj, Memory>
    ensures { IfOk result (λ m. read_object m ≡ meant.reduce (read_object value.now) (read_simple simple.now) (read_objects spine.now)) }
{
    let mut applied = value.copy(alloc)?;
    let mut current = simple;
    for argument in spine {
        applied = apply_copied(alloc, applied, current, argument)?;
        current = codomain(current);
    }
    Ok(applied)
}
