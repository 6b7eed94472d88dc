//! Sets of places in a table, which are gone through from the first one on.
ghost use Rattle.std.specs.Prelude.{◌≡◌, ◌<◌, ℕ, Some, true, false, length, replicate, set, slice_get, take, IfOk};
ghost use Rattle.list_laws.proofs.Members.{Member};
ghost use Rattle.verdict_board.specs.PlaceSets.{NoneBefore};
ghost use Rattle.verdict_board.specs.Readiness.{AreMarked};

use lf_terms::Memory;
use std::alloc::Global;
use std::marker::Model;

/// A set of places of a table. It is seen as the list of whether each place is in it.
#[derive(Drop)]
pub struct PlaceSet {
    holds: Vec<bool>,
    /// No place before this one is in the set, so that a search begins here.
    begin: usize,
}

impl Model for PlaceSet {
    ghost use Rattle.std.specs.Prelude.{Bool, List};
    ghost use Rattle.verdict_board.specs.PlaceSets.{NoneBefore};

    ghost Value = { List Bool };

    ghost view = { λ s. s.holds.items };

    ghost invariant = { λ s. NoneBefore s.begin s.holds.items };
}

impl PlaceSet {
    /// All places of a table of so many rows.
    pub fn all(alloc: Global, count: usize) -> Result<PlaceSet, Memory>
        ensures { IfOk result (λ places. places ≡ replicate count true) }
    {
        Ok(PlaceSet {
            holds: vec![in alloc; true; count]?,
            begin: 0,
        })
    }

    /// Leaves so many places at most. It takes no memory.
    pub fn truncate(&mut self, count: usize)
        ensures { self.new ≡ take count self.old }
    {
        self.holds.truncate(count);
    }

    /// Whether a place is in the set.
    pub fn contains(&self, place: usize) -> bool
        requires { place < length self.now }
        ensures { slice_get self.now place ≡ Some result }
    {
        self.holds[place]
    }

    /// Puts a place into the set. It takes no memory.
    pub fn insert(&mut self, place: usize)
        requires { place < length self.old }
        ensures { self.new ≡ set self.old place true }
    {
        self.begin = self.begin.min(place);
        self.holds[place] = true;
    }

    /// Puts these places into the set. It takes no memory.
    pub fn insert_all(&mut self, places: &[usize])
        requires { (place : ℕ) → Member place places.now → place < length self.old }
        ensures length { length self.new ≡ length self.old }
        ensures marked { AreMarked self.old self.new places.now }
    {
        for place in places {
            self.insert(*place);
        }
    }

    /// Takes a place out of the set.
    pub fn remove(&mut self, place: usize)
        requires { place < length self.old }
        ensures { self.new ≡ set self.old place false }
    {
        self.holds[place] = false;
    }

    /// A place before which none is in the set.
    pub fn begin(&self) -> usize
        ensures { NoneBefore result self.now }
    {
        self.begin
    }

    /// Notes that no place before this one is in the set.
    pub fn begin_at(&mut self, place: usize)
        requires { NoneBefore place self.old }
        ensures { self.new ≡ self.old }
    {
        self.begin = place;
    }
}
