//! Lists of names in byte order are merged.
ghost use Rattle.std.specs.Prelude.{◌≡◌, ◌++◌, drop, true, unwrap_or, IfOk, OnOk};
ghost use Rattle.name_meaning.specs.Names.{is_ascending, with_name};
ghost use Rattle.module_graph.specs.Merging.{IsMerge};

use lf_terms::{Memory, Name, Names};
use std::alloc::Global;

/// The names of both lists, which stand in byte order, in byte order. Time grows with the lengths of both.
pub fn merged(alloc: Global, left: &Names, right: &Names) -> Result<Names, Memory>
    requires left { is_ascending left.now ≡ true }
    requires right { is_ascending right.now ≡ true }
    ensures { IfOk result (λ names. IsMerge left.now right.now names) }
{
    let ours = left.as_slice();
    let theirs = right.as_slice();
    let mut names = Vec::with_capacity(alloc, ours.len().max(theirs.len()))?;
    let mut own = 0;
    let mut other = 0;
    while own < ours.len() && other < theirs.len() {
        if ours[own] == theirs[other] {
            names.push(ours[own].copy(alloc)?)?;
            own += 1;
            other += 1;
        } else if ours[own] < theirs[other] {
            names.push(ours[own].copy(alloc)?)?;
            own += 1;
        } else {
            names.push(theirs[other].copy(alloc)?)?;
            other += 1;
        }
    }
    add_from(alloc, &mut names, ours, own)?;
    add_from(alloc, &mut names, theirs, other)?;
    Ok(Names::from_vec(names))
}

/// These names, which stand in byte order, with one more at its place. None: it is one of them, and nothing is copied.
pub fn with_one(alloc: Global, names: &Names, name: &Name) -> Result<Option<Names>, Memory>
    requires { is_ascending names.now ≡ true }
    ensures { IfOk result (λ more. with_name name.now names.now ≡ unwrap_or more names.now) }
{
    let items = names.as_slice();
    match items.binary_search(name) {
        Ok(_) => Ok(None),
        Err(place) => {
            let mut more = Vec::with_capacity(alloc, items.len() + 1)?;
            add_from(alloc, &mut more, items, 0)?;
            more.insert(place, name.copy(alloc)?)?;
            Ok(Some(Names::from_vec(more)))
        }
    }
}

/// Adds names at the end, from a place on.
fn add_from(alloc: Global, names: &mut Vec<Name>, more: &[Name], from: usize) -> Result<(), Memory>
    ensures { OnOk result (names.new.items ≡ names.old.items ++ drop from more.now) }
{
    for place in from..more.len() {
        names.push(more[place].copy(alloc)?)?;
    }
    Ok(())
}
