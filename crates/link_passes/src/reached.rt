//! Which assignment reaches an own constant of the domain.
ghost use Rattle.std.specs.Prelude.{◌≡◌, ◌<◌, IfOk, Some, length, slice_get};
ghost use Rattle.std.specs.Option.{option_map};
ghost use Rattle.link_meaning.specs.Assignments as links;
ghost use Rattle.link_meaning.specs.Passes as passes;
ghost use Rattle.link_setting.specs.Readings.{read_all_assigned, read_assigned};
ghost use Rattle.link_passes.specs.Reaching.{read_rest, or_reached, reached_through};
ghost use Rattle.link_passes.specs.Targets.{AreNumbered};

use crate::targets::Targets;
use lf_terms::{Memory, Name, Path, Span};
use link_setting::{Assigned, Link};
use mmt_syntax::Expr;
use std::alloc::Global;

/// A path that is not empty, in its parts.
#[derive(Clone, Copy)]
pub(crate) struct Rest<'a> {
    pub(crate) first: &'a Name,
    pub(crate) more: &'a [Name],
}

/// The assignment that reaches a constant: one of a value, or one of a structure whose constant it is.
#[derive(Clone, Copy)]
pub(crate) enum Reached<'a> {
    ByValue {
        target: &'a Path,
        value: &'a Expr,
    },
    /// With the path of the constant in the structure's domain.
    ByStructure {
        target: &'a Path,
        rest: Rest<'a>,
        structure: &'a Link,
        first: Span,
        by: &'a Link,
    },
}

/// The targets of these assignments, in a table that is made once for a link. It may find no memory.
pub(crate) fn targets_of<'a>(
    alloc: Global,
    assigned: &[Assigned<'a>],
) -> Result<Targets<'a>, Memory>
    ensures { IfOk result (λ targets. AreNumbered targets (read_all_assigned assigned.now)) }
{
    let mut targets = Targets::new(alloc);
    for (number, item) in assigned.iter().enumerate() {
        targets.add(item, number)?;
    }
    Ok(targets)
}

/// The first assignment that reaches the path, by the table of their targets. None where there is none. Time grows with the
/// path alone.
pub(crate) fn reached_by<'a>(
    targets: &Targets<'_>,
    assigned: &'a [Assigned<'a>],
    path: &'a Path,
) -> Option<Reached<'a>>
    requires { AreNumbered targets.now (read_all_assigned assigned.now) }
    ensures { or_reached result passes.ByNone ≡ passes.reached_by (read_all_assigned assigned.now) path.now }
{
    match targets.first(path) {
        Some(number) => reached_at(assigned, number, path),
        None => None,
    }
}

/// The assignment with a number, if it reaches the path.
fn reached_at<'a>(
    assigned: &'a [Assigned<'a>],
    number: usize,
    path: &'a Path,
) -> Option<Reached<'a>>
    requires { number < length assigned.now }
    ensures { (item : links.Assigned) (otherwise : passes.Reached) → slice_get (read_all_assigned assigned.now) number ≡ Some item → or_reached result otherwise ≡ reached_through item path.now otherwise }
{
    reached_through_one(&assigned[number], path)
}

/// The assignment, if it reaches the path.
fn reached_through_one<'a>(item: &'a Assigned<'a>, path: &'a Path) -> Option<Reached<'a>>
    ensures { (otherwise : passes.Reached) → or_reached result otherwise ≡ reached_through (read_assigned item.now) path.now otherwise }
{
    match item {
        Assigned::Covering { .. } => None,
        Assigned::Sharing {
            target,
            structure,
            first,
            by,
        } => {
            let rest = rest_behind(target, path)?;
            Some(Reached::ByStructure {
                target,
                rest,
                structure,
                first: *first,
                by,
            })
        }
        Assigned::Giving { target, value } => {
            if **target == *path {
                Some(Reached::ByValue { target, value })
            } else {
                None
            }
        }
    }
}

/// The rest of a path behind its beginning. None where there is none, or it is empty.
fn rest_behind<'a>(beginning: &Path, path: &'a Path) -> Option<Rest<'a>>
    ensures { option_map read_rest result ≡ passes.rest_behind beginning.now path.now }
{
    match path.as_slice().strip_prefix(beginning.as_slice())? {
        [first, more @ ..] => Some(Rest { first, more }),
        [] => None,
    }
}
