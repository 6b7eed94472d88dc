//! Raising of the variables of a term. Arguments in which nothing is raised are handed on.
ghost use Rattle.std.specs.Prelude.{◌≡◌, ◌<◌, ◌+◌, ◌^◌, IfOk, IsTrue, map};
ghost use Rattle.lf_meaning.specs.Raising.{raise, raise_atomic, raise_family, raise_kind};
ghost use Rattle.term_trees.specs.Readings.{read_head, read_object, read_arguments, read_family, read_kind};
ghost use Rattle.term_trees.specs.Changes.{changed};

use crate::changes::{with_all, with_next};
use crate::{Fam, Head, Kind, Obj, Spine};
use base_types::Memory;
use std::alloc::Global;

/// The object with `by` added to every index that is not below `from`, which is counted at the top. An index past the
/// greatest is want of memory, and so is a binder under which `from` would pass it. It recurses as deep as the object
/// is nested, with a loop over the arguments of a head.
pub fn shift_obj(alloc: Global, t: &Obj, by: u32, from: u32) -> Result<Obj, Memory>
    ensures { IfOk result (λ m. read_object m ≡ raise by from (read_object t.now)) }
{
    if by == 0 {
        return t.copy(alloc);
    }
    match raised_obj(alloc, t, by, from)? {
        Some(raised) => Ok(raised),
        None => t.copy(alloc),
    }
}

/// The same. None where nothing changes.
#[cycle(shifting)]
fn raised_obj(alloc: Global, t: &Obj, by: u32, from: u32) -> Result<Option<Obj>, Memory>
    ensures { IfOk result (λ raised. read_object (changed t.now raised) ≡ raise by from (read_object t.now)) }
{
    match t {
        Obj::Lam(body) => match raised_obj(alloc, body, by, inside(from)?)? {
            Some(raised) => Ok(Some(Obj::Lam(Box::new(alloc, raised)?))),
            None => Ok(None),
        },
        Obj::At { head, spine } => match raised_spine(alloc, spine, by, from)? {
            Some(raised) => Ok(Some(Obj::At {
                head: shift_head(alloc, head, by, from)?,
                spine: raised,
            })),
            None if is_kept(head, by, from) => Ok(None),
            None => Ok(Some(Obj::At {
                head: shift_head(alloc, head, by, from)?,
                spine: spine.copy(alloc)?,
            })),
        },
    }
}

/// The arguments raised. None where nothing of them changes.
#[cycle(shifting)]
fn raised_spine(alloc: Global, spine: &Spine, by: u32, from: u32) -> Result<Option<Spine>, Memory>
    ensures { IfOk result (λ raised. read_arguments (changed spine.now raised) ≡ map (raise by from) (read_arguments spine.now)) }
{
    let items = spine.as_slice();
    let mut so_far = None;
    for (i, item) in items.iter().enumerate() {
        let new = raised_obj(alloc, item, by, from)?;
        so_far = with_next(alloc, items, i, item, so_far, new)?;
    }
    with_all(alloc, spine, so_far)
}

/// Whether raising leaves a head.
fn is_kept(head: &Head, by: u32, from: u32) -> bool
    ensures { IsTrue result → read_head head.now ≡ raise_atomic by from (read_head head.now) }
{
    match head {
        Head::Var(index) => *index < from || by == 0,
        Head::Con(_) => true,
    }
}

fn shift_spine(alloc: Global, spine: &Spine, by: u32, from: u32) -> Result<Spine, Memory>
    ensures { IfOk result (λ raised. read_arguments raised ≡ map (raise by from) (read_arguments spine.now)) }
{
    match raised_spine(alloc, spine, by, from)? {
        Some(raised) => Ok(raised),
        None => spine.copy(alloc),
    }
}

fn shift_head(alloc: Global, head: &Head, by: u32, from: u32) -> Result<Head, Memory>
    ensures { IfOk result (λ raised. read_head raised ≡ raise_atomic by from (read_head head.now)) }
{
    match head {
        Head::Var(index) if *index >= from => match index.checked_add(by) {
            Some(index) => Ok(Head::Var(index)),
            None => Err(Memory),
        },
        Head::Var(index) => Ok(Head::Var(*index)),
        Head::Con(constant) => Ok(Head::Con(constant.copy(alloc)?)),
    }
}

/// The number of binders passed, under one more.
fn inside(from: u32) -> Result<u32, Memory>
    ensures { IfOk result (λ inner. inner ≡ from + 1) }
{
    match from.checked_add(1) {
        Some(inner) => Ok(inner),
        None => Err(Memory),
    }
}

/// The family with its variables raised, as `shift_obj` does it.
pub fn shift_fam(alloc: Global, t: &Fam, by: u32, from: u32) -> Result<Fam, Memory>
    ensures { IfOk result (λ family. read_family family ≡ raise_family by from (read_family t.now)) }
{
    match t {
        Fam::Pi(domain, body) => {
            let domain = Box::new(alloc, shift_fam(alloc, domain, by, from)?)?;
            let body = shift_fam(alloc, body, by, inside(from)?)?;
            Ok(Fam::Pi(domain, Box::new(alloc, body)?))
        }
        Fam::At { head, spine } => Ok(Fam::At {
            head: head.copy(alloc)?,
            spine: shift_spine(alloc, spine, by, from)?,
        }),
    }
}

/// The kind with its variables raised, as `shift_obj` does it.
pub fn shift_kind(alloc: Global, t: &Kind, by: u32, from: u32) -> Result<Kind, Memory>
    ensures { IfOk result (λ kind. read_kind kind ≡ raise_kind by from (read_kind t.now)) }
{
    match t {
        Kind::Ty => Ok(Kind::Ty),
        Kind::Pi(domain, body) => {
            let domain = Box::new(alloc, shift_fam(alloc, domain, by, from)?)?;
            let body = shift_kind(alloc, body, by, inside(from)?)?;
            Ok(Kind::Pi(domain, Box::new(alloc, body)?))
        }
    }
}
