//! Paths in a tree: a step for each name, so that what begins a path, and what the path begins, is found name by name.
ghost use Rattle.std.specs.Prelude.{◌≡◌, [], length, suc, None, Some, IfOk, OnOk};
ghost use Rattle.link_setting.specs.PathTrees.{go_on, next_place, place_along, steps_of, with_step, AreBegun, Stay};

use indexmap::IndexSet;
use lf_terms::{Memory, Name, Path};
use std::alloc::Global;

/// A step by a name, from a place.
#[derive(Clone, Copy, Drop, PartialEq, Eq, Hash)]
struct Step<'a> {
    from: usize,
    name: &'a Name,
}

/// Places, counted from 0, and the steps between them: each path that was added leads from the place 0 to one of its own.
#[derive(Drop)]
pub struct PathTree<'a> {
    /// The step with the index i leads to the place i + 1.
    steps: IndexSet<Step<'a>>,
}

impl<'a> PathTree<'a> {
    /// The place 0 alone. It takes no memory.
    pub fn new(alloc: Global) -> PathTree<'a>
        ensures { steps_of result ≡ [] }
    {
        PathTree {
            steps: IndexSet::new(alloc),
        }
    }

    /// The place to which a name leads from a place. None where there is no place to go from, or no path goes on so.
    pub fn next(&self, from: Option<usize>, name: &Name) -> Option<usize>
        ensures { result ≡ go_on (steps_of self.now) from name.now }
    {
        self.step(from?, name)
    }

    /// Adds a path, and says to which place it leads. The places of others stay.
    pub fn add(&mut self, path: &'a Path) -> Result<usize, Memory>
        ensures place { IfOk result (λ place. place_along (steps_of self.new) path.now ≡ Some place) }
        ensures stay { OnOk result (Stay (steps_of self.old) (steps_of self.new)) }
        ensures begun { OnOk result (AreBegun (steps_of self.old) (steps_of self.new) path.now) }
    {
        let mut at = 0;
        for name in path.as_slice() {
            at = match self.step(at, name) {
                Some(place) => place,
                None => self.add_step(at, name)?,
            };
        }
        Ok(at)
    }

    /// The place to which a name leads from a place.
    fn step(&self, from: usize, name: &Name) -> Option<usize>
        ensures { result ≡ next_place (steps_of self.now) from name.now }
    {
        if self.steps.len() == 0 {
            return None;
        }
        Some(self.steps.get_index_of(&Step { from, name })? + 1)
    }

    /// Adds a step that is not there, and says to which place it leads.
    fn add_step(&mut self, from: usize, name: &'a Name) -> Result<usize, Memory>
        requires { next_place (steps_of self.old) from name.now ≡ None }
        ensures steps { OnOk result (steps_of self.new ≡ with_step (steps_of self.old) from name.entry) }
        ensures place { IfOk result (λ place. place ≡ suc (length (steps_of self.old))) }
    {
        let place = self.steps.len() + 1;
        self.steps.insert(Step { from, name })?;
        Ok(place)
    }
}
