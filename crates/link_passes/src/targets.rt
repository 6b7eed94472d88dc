//! The targets of assignments in a tree, with the first assignment to each.
ghost use Rattle.std.specs.Prelude.{◌≡◌, ◌∷◌, ◌++◌, ℕ, [], List, OnOk, length};
ghost use Rattle.link_meaning.specs.Assignments as links;
ghost use Rattle.link_setting.specs.Readings.{read_assigned};
ghost use Rattle.link_passes.specs.Targets.{earlier_of, first_that, number_along, number_at, numbered_more, reaches, AreNumbered};

use indexmap::IndexMap;
use lf_terms::{Memory, Path};
use link_setting::{Assigned, PathTree};
use std::alloc::Global;

/// The targets of assignments in a tree; and by the place to which a target leads, the number of the first assignment to it,
/// counted from 0: of those that share a structure, and of those that give a value.
#[derive(Drop)]
pub(crate) struct Targets<'a> {
    tree: PathTree<'a>,
    shared: IndexMap<usize, usize>,
    given: IndexMap<usize, usize>,
}

impl<'a> Targets<'a> {
    /// No targets. It takes no memory.
    pub(crate) fn new(alloc: Global) -> Targets<'a>
        ensures { AreNumbered result [] }
    {
        Targets {
            tree: PathTree::new(alloc),
            shared: IndexMap::new(alloc),
            given: IndexMap::new(alloc),
        }
    }

    /// Adds the target of the assignment with a number, if it has one.
    pub(crate) fn add(&mut self, assigned: &Assigned<'a>, number: usize) -> Result<(), Memory>
        ensures { OnOk result ((items : List links.Assigned) → length items ≡ number → AreNumbered self.old items → AreNumbered self.new (items ++ read_assigned assigned.now ∷ [])) }
    {
        match assigned {
            Assigned::Covering { .. } => Ok(()),
            Assigned::Sharing { target, .. } => {
                let place = self.tree.add(*target)?;
                note(&mut self.shared, place, number)?;
                Ok(())
            }
            Assigned::Giving { target, .. } => {
                let place = self.tree.add(*target)?;
                note(&mut self.given, place, number)?;
                Ok(())
            }
        }
    }

    /// The number of the first assignment that reaches the path. Time grows with the path alone.
    pub(crate) fn first(&self, path: &Path) -> Option<usize>
        ensures { (items : List links.Assigned) → AreNumbered self.now items → result ≡ first_that (reaches path.now) items }
    {
        let mut at = Some(0);
        let mut first = None;
        for name in path.as_slice() {
            first = earlier(first, number_of(&self.shared, at));
            at = self.tree.next(at, name);
        }
        earlier(first, number_of(&self.given, at))
    }
}

/// Notes a number for a place, unless the place has one.
fn note(numbers: &mut IndexMap<usize, usize>, place: usize, number: usize) -> Result<(), Memory>
    ensures { OnOk result ((other : ℕ) → number_at numbers.new.entries other ≡ numbered_more (number_at numbers.old.entries other) place number other) }
{
    if numbers.contains_key(&place) {
        return Ok(());
    }
    numbers.insert(place, number)?;
    Ok(())
}

/// The number of a place, where there is a place and it has one.
fn number_of(numbers: &IndexMap<usize, usize>, at: Option<usize>) -> Option<usize>
    ensures { result ≡ number_along numbers.now.entries at }
{
    if numbers.len() == 0 {
        return None;
    }
    numbers.get(&at?).copied()
}

/// The smaller one of two numbers, as far as they are there.
fn earlier(number: Option<usize>, other: Option<usize>) -> Option<usize>
    ensures { result ≡ earlier_of number other }
{
    match (number, other) {
        (Some(number), Some(other)) => Some(number.min(other)),
        (None, other) => other,
        (number, None) => number,
    }
}
