//! Names that are added to a list, each unless it is there.
ghost use Rattle.std.specs.Prelude.{IfOk, List, OnOk};
ghost use Rattle.name_meaning.specs.Names.{Name as BytesOfName};
ghost use Rattle.library_meaning.specs.Closure.{with_all, with_once};
ghost use Rattle.include_closure.specs.Additions.{Extends};

use indexmap::IndexSet;
use lf_terms::{Memory, Name};
use std::alloc::Global;

/// The names that are there, in a hash table, and those that were added, in order.
#[derive(Drop)]
pub struct Additions {
    pub known: IndexSet<Name>,
    pub added: Vec<Name>,
}

impl Additions {
    /// Nothing is added to these names yet.
    pub fn to(alloc: Global, names: &[Name]) -> Result<Additions, Memory>
        ensures { IfOk result (λ additions. Extends additions names.now names.now) }
    {
        let mut known = IndexSet::new(alloc);
        for name in names {
            known.insert(name.copy(alloc)?)?;
        }
        Ok(Additions {
            known,
            added: Vec::new(alloc),
        })
    }

    /// Adds a name, unless it is there.
    pub fn add(&mut self, alloc: Global, name: &Name) -> Result<(), Memory>
        ensures { OnOk result ((front whole : List BytesOfName) → Extends self.old front whole → Extends self.new front (with_once whole name.now)) }
    {
        if self.known.insert(name.copy(alloc)?)? {
            self.added.push(name.copy(alloc)?)?;
        }
        Ok(())
    }

    /// Adds names in order, each unless it is there.
    pub fn add_all(&mut self, alloc: Global, names: &[Name]) -> Result<(), Memory>
        ensures { OnOk result ((front whole : List BytesOfName) → Extends self.old front whole → Extends self.new front (with_all whole names.now)) }
    {
        for name in names {
            self.add(alloc, name)?;
        }
        Ok(())
    }
}
