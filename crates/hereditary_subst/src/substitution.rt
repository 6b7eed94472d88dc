//! Hereditary substitution into objects, families and kinds.
ghost use Rattle.std.specs.Prelude.{◌≡◌, ◌+◌, length, IfOk, map};
ghost use Rattle.lf_meaning.specs.Substitution.{substitute, substitute_family, substitute_kind};
ghost use Rattle.term_trees.specs.Readings.{arguments_of, read_simple, read_object, read_arguments, read_family, read_kind};
ghost use Rattle.term_trees.specs.Changes.{changed, gathered};

use crate::reduction::take_all;
use lf_terms::{
    DEEPEST, Fam, Head, Kind, Memory, Obj, Simple, Spine, shift_obj, spine_of_all, vec_of_all,
    with_head, with_next,
};
use std::alloc::Global;

/// The object with the value, at its simple type, substituted hereditarily for variable `at`, which is counted at the
/// top. The value stands outside of that variable.
///
/// The value is raised and copied only where the variable is met. More than `DEEPEST` calls in one another are want of
/// memory, and so is a growth past the greatest index or length.
pub fn subst_obj(
    alloc: Global,
    value: &Obj,
    simple: &Simple,
    at: u32,
    into: &Obj,
) -> Result<Obj, Memory>
    ensures { IfOk result (λ m. read_object m ≡ substitute (read_object value.now) (read_simple simple.now) at (read_object into.now)) }
{
    match subst_within(alloc, value, simple, at, into, DEEPEST)? {
        Some(new) => Ok(new),
        None => into.copy(alloc),
    }
}

/// As `subst_obj`, where at most so many calls may stand in one another. None where nothing changes.
#[cycle(substitution)]
pub(crate) fn subst_within(
    alloc: Global,
    value: &Obj,
    simple: &Simple,
    at: u32,
    into: &Obj,
    left: u32,
) -> Result<Option<Obj>, Memory>
    ensures { IfOk result (λ new. read_object (changed into.now new) ≡ substitute (read_object value.now) (read_simple simple.now) at (read_object into.now)) }
{
    let less = one_less(left)?;
    match into {
        Obj::Lam(body) => match subst_within(alloc, value, simple, inside(at)?, body, less)? {
            Some(new) => Ok(Some(Obj::Lam(Box::new(alloc, new)?))),
            None => Ok(None),
        },
        Obj::At { head, spine } => {
            let so_far = subst_arguments(alloc, value, simple, at, spine, less)?;
            match head {
                Head::Var(index) if *index == at => {
                    let mut reversed = vec_of_all(alloc, spine, so_far)?;
                    reversed.reverse();
                    let raised = shift_obj(alloc, value, at, 0)?;
                    Ok(Some(take_all(alloc, raised, simple, reversed, less)?))
                }
                Head::Var(index) if *index > at => Ok(Some(Obj::At {
                    head: Head::Var(*index - 1),
                    spine: spine_of_all(alloc, spine, so_far)?,
                })),
                Head::Var(_) => with_head(alloc, head, spine, so_far),
                Head::Con(_) => with_head(alloc, head, spine, so_far),
            }
        }
    }
}

/// What is gathered of the arguments with the value substituted in each.
#[cycle(substitution)]
fn subst_arguments(
    alloc: Global,
    value: &Obj,
    simple: &Simple,
    at: u32,
    spine: &Spine,
    left: u32,
) -> Result<Option<Vec<Obj>>, Memory>
    ensures { IfOk result (λ so_far. gathered (arguments_of spine.now) (length (arguments_of spine.now)) so_far ≡ map (substitute (read_object value.now) (read_simple simple.now) at) (read_arguments spine.now)) }
{
    let items = spine.as_slice();
    let mut so_far = None;
    for (i, item) in items.iter().enumerate() {
        let new = subst_within(alloc, value, simple, at, item, left)?;
        so_far = with_next(alloc, items, i, item, so_far, new)?;
    }
    Ok(so_far)
}

/// The spine with the value substituted in each argument.
fn subst_spine(
    alloc: Global,
    value: &Obj,
    simple: &Simple,
    at: u32,
    spine: &Spine,
) -> Result<Spine, Memory>
    ensures { IfOk result (λ items. read_arguments items ≡ map (substitute (read_object value.now) (read_simple simple.now) at) (read_arguments spine.now)) }
{
    let so_far = subst_arguments(alloc, value, simple, at, spine, DEEPEST)?;
    spine_of_all(alloc, spine, so_far)
}

/// One call less.
pub(crate) fn one_less(left: u32) -> Result<u32, Memory>
    ensures { IfOk result (λ less. left ≡ less + 1) }
{
    left.checked_sub(1).ok_or(Memory)
}

/// The variable, under one binder more.
fn inside(at: u32) -> Result<u32, Memory>
    ensures { IfOk result (λ inner. inner ≡ at + 1) }
{
    at.checked_add(1).ok_or(Memory)
}

/// The family with the value substituted, as `subst_obj` does it.
pub fn subst_fam(
    alloc: Global,
    value: &Obj,
    simple: &Simple,
    at: u32,
    into: &Fam,
) -> Result<Fam, Memory>
    ensures { IfOk result (λ family. read_family family ≡ substitute_family (read_object value.now) (read_simple simple.now) at (read_family into.now)) }
{
    match into {
        Fam::Pi(domain, body) => {
            let domain = Box::new(alloc, subst_fam(alloc, value, simple, at, domain)?)?;
            let body = subst_fam(alloc, value, simple, inside(at)?, body)?;
            Ok(Fam::Pi(domain, Box::new(alloc, body)?))
        }
        Fam::At { head, spine } => Ok(Fam::At {
            head: head.copy(alloc)?,
            spine: subst_spine(alloc, value, simple, at, spine)?,
        }),
    }
}

/// The kind with the value substituted, as `subst_obj` does it.
pub fn subst_kind(
    alloc: Global,
    value: &Obj,
    simple: &Simple,
    at: u32,
    into: &Kind,
) -> Result<Kind, Memory>
    ensures { IfOk result (λ kind. read_kind kind ≡ substitute_kind (read_object value.now) (read_simple simple.now) at (read_kind into.now)) }
{
    match into {
        Kind::Ty => Ok(Kind::Ty),
        Kind::Pi(domain, body) => {
            let domain = Box::new(alloc, subst_fam(alloc, value, simple, at, domain)?)?;
            let body = subst_kind(alloc, value, simple, inside(at)?, body)?;
            Ok(Kind::Pi(domain, Box::new(alloc, body)?))
        }
    }
}
