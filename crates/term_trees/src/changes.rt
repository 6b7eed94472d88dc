//! Arguments that come in place of those of a spine. Those before the first one that is changed take no memory until then, and a spine
//! of which nothing is changed can be handed on.
ghost use Rattle.std.specs.Prelude.{◌≡◌, ◌<◌, ◌+◌, ◌∷◌, ◌++◌, [], length, slice_index_or, IfOk};
ghost use Rattle.lf_meaning.specs.Terms.{At, apply_all};
ghost use Rattle.term_trees.specs.Readings.{arguments_of, read_arguments, read_head, read_object, read_objects};
ghost use Rattle.term_trees.specs.Changes.{changed, gathered};
ghost use Rattle.term_trees.specs.declared.obj.Obj.TheVariants as objects;

use crate::obj::copies;
use crate::{Head, Obj, Spine};
use base_types::Memory;
use std::alloc::Global;

/// What is gathered of the first arguments, and then of the next one, which stays or is changed. None where all stay.
pub fn with_next(
    alloc: Global,
    items: &[Obj],
    i: usize,
    item: &Obj,
    so_far: Option<Vec<Obj>>,
    new: Option<Obj>,
) -> Result<Option<Vec<Obj>>, Memory>
    requires inside { i < length items.now }
    requires item { item.now ≡ slice_index_or items.now i item.now }
    ensures { IfOk result (λ more. gathered items.now (i + 1) more ≡ gathered items.now i so_far ++ read_object (changed item.now new) ∷ []) }
{
    match (so_far, new) {
        (None, None) => Ok(None),
        (None, Some(new)) => {
            let mut more = copies(alloc, &items[..i], items.len())?;
            more.push(new)?;
            Ok(Some(more))
        }
        (Some(mut more), None) => {
            more.push(item.copy(alloc)?)?;
            Ok(Some(more))
        }
        (Some(mut more), Some(new)) => {
            more.push(new)?;
            Ok(Some(more))
        }
    }
}

/// The spine of what was gathered of all arguments. None where all stay.
pub fn with_all(
    alloc: Global,
    spine: &Spine,
    so_far: Option<Vec<Obj>>,
) -> Result<Option<Spine>, Memory>
    ensures { IfOk result (λ new. read_arguments (changed spine.now new) ≡ gathered (arguments_of spine.now) (length (arguments_of spine.now)) so_far) }
{
    match so_far {
        Some(items) => Ok(Some(Spine::of(alloc, items)?)),
        None => Ok(None),
    }
}

/// A head that stays, with what was gathered of its arguments. None where they stay too.
pub fn with_head(
    alloc: Global,
    head: &Head,
    spine: &Spine,
    so_far: Option<Vec<Obj>>,
) -> Result<Option<Obj>, Memory>
    ensures { IfOk result (λ new. read_object (changed (objects.At head.now spine.now) new) ≡ At (apply_all (read_head head.now) (gathered (arguments_of spine.now) (length (arguments_of spine.now)) so_far))) }
{
    match with_all(alloc, spine, so_far)? {
        Some(new) => Ok(Some(Obj::At {
            head: head.copy(alloc)?,
            spine: new,
        })),
        None => Ok(None),
    }
}

/// What was gathered of all arguments, on a spine; their own one where all stay.
pub fn spine_of_all(alloc: Global, spine: &Spine, so_far: Option<Vec<Obj>>) -> Result<Spine, Memory>
    ensures { IfOk result (λ new. read_arguments new ≡ gathered (arguments_of spine.now) (length (arguments_of spine.now)) so_far) }
{
    match so_far {
        Some(items) => Spine::of(alloc, items),
        None => spine.copy(alloc),
    }
}

/// What was gathered of all arguments, in a vector.
pub fn vec_of_all(
    alloc: Global,
    spine: &Spine,
    so_far: Option<Vec<Obj>>,
) -> Result<Vec<Obj>, Memory>
    ensures { IfOk result (λ all. read_objects all.items ≡ gathered (arguments_of spine.now) (length (arguments_of spine.now)) so_far) }
{
    match so_far {
        Some(items) => Ok(items),
        None => copies(alloc, spine.as_slice(), spine.len()),
    }
}
