//! How deep arguments may be nested, and how many heads there may be.

use lf_terms::{Head, Memory, Obj, Spine};
use std::alloc::Global;

/// So deep arguments may be nested. docs/guide/limits.md tells it.
const DEEPEST: usize = 40_000;

/// So often two heads may become twice themselves and two more: there are 2^26 - 2 then.
const DOUBLINGS: usize = 25;

/// Whether what a row says of arguments is so.
pub(crate) fn spine_call(alloc: Global, line: &str) -> bool {
    match line {
        "arguments are nested up to a bound" => end_at(alloc, 1, DEEPEST),
        _ => end_at(alloc, 2, DOUBLINGS),
    }
}

/// Whether a head may have the row before it as arguments of so many heads so often, and not once more.
fn end_at(alloc: Global, width: usize, most: usize) -> bool {
    let mut rows = Vec::new(alloc);
    let refused = grow(alloc, &mut rows, width, most.saturating_add(1)).is_err();
    let made = rows.len();
    let_go(&mut rows, made);
    refused && made == most
}

/// Adds rows, at most so many, until one is refused.
fn grow(alloc: Global, rows: &mut Vec<Spine>, width: usize, most: usize) -> Result<(), Memory> {
    for _ in 0..most {
        let next = next_row(alloc, rows.last(), width)?;
        rows.push(next)?;
    }
    Ok(())
}

/// A row of heads that have the last row as their arguments.
fn next_row(alloc: Global, last: Option<&Spine>, width: usize) -> Result<Spine, Memory> {
    let mut items = Vec::new(alloc);
    for _ in 0..width {
        let spine = match last {
            Some(spine) => spine.copy(alloc)?,
            None => Spine::new(alloc),
        };
        items.push(Obj::At {
            head: Head::Var(0),
            spine,
        })?;
    }
    Spine::of(alloc, items)
}

/// Lets rows go from the last one, so that none goes within another.
fn let_go(rows: &mut Vec<Spine>, many: usize) {
    for _ in 0..many {
        drop(rows.pop());
    }
}
