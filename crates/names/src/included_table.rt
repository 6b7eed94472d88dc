//! Which of the included theories has a constant at a path, in a table.
ghost use Rattle.std.specs.Prelude.{◌≡◌, IfOk, List, OnOk};
ghost use Rattle.std.specs.Option.{option_copied};
ghost use Rattle.name_meaning.specs.Names as meant;
ghost use Rattle.library_meaning.specs.Closure.{sees};
ghost use Rattle.lf_terms.specs.Tables.{same_path};
ghost use Rattle.std.specs.Map.{lookup};
ghost use Rattle.term_trees.specs.Readings.{read_declaration, read_signature};
ghost use Rattle.mmt_interface.specs.Readings.{environment_of};
ghost use Rattle.names.specs.IncludedTables.{next_place, place_among, place_in, with_declaration, with_own, HasTheories, Tabulates};

use indexmap::{IndexMap, IndexSet};
use lf_terms::{FlatDecl, FlatSig, Memory, Name, Path};
use mmt_interface::Faces;
use std::alloc::Global;

/// Names of theories, and for each path that constants of theirs have, the place of the theory among the names if only one has it.
/// A look-up takes expected constant time.
#[derive(Debug, Drop)]
pub struct IncludedTable {
    theories: IndexSet<Name>,
    places: IndexMap<Path, Option<usize>>,
}

impl IncludedTable {
    /// The table of these theories. Time and memory grow with the number of their own constants; it may find no memory.
    pub fn new(alloc: Global, includes: &[Name], faces: &Faces) -> Result<IncludedTable, Memory>
        ensures { IfOk result (λ table. Tabulates table includes.now (environment_of faces.now)) }
    {
        let theories = all_names(alloc, includes)?;
        let places = all_places(alloc, includes, faces)?;
        Ok(IncludedTable { theories, places })
    }

    /// Whether a theory is among them.
    pub(crate) fn has(&self, theory: &Name) -> bool
        ensures { (names : List meant.Name) → HasTheories self.now.theories.keys names → result ≡ sees names theory.now }
    {
        self.theories.contains(theory)
    }

    /// The place, counted from 0, of the only theory with a constant at the path. `None` where no theory has one, and `Some(None)` where
    /// more than one has.
    pub(crate) fn place(&self, path: &Path) -> Option<Option<usize>>
        ensures { result ≡ place_in self.now.places.entries path.now }
    {
        self.places.get(path).copied()
    }
}

/// A set of these names.
fn all_names(alloc: Global, names: &[Name]) -> Result<IndexSet<Name>, Memory>
    ensures { IfOk result (λ set. HasTheories set.keys names.now) }
{
    let mut set = IndexSet::new(alloc);
    for name in names {
        set.insert(name.copy(alloc)?)?;
    }
    Ok(set)
}

/// The places of these theories, for each path.
fn all_places(
    alloc: Global,
    theories: &[Name],
    faces: &Faces,
) -> Result<IndexMap<Path, Option<usize>>, Memory>
    ensures { IfOk result (λ places. (path : meant.Path) → place_in places.entries path ≡ place_among (environment_of faces.now) path theories.now) }
{
    let mut places = IndexMap::new(alloc);
    for place in 0..theories.len() {
        if let Some(face) = faces.theory(&theories[place]) {
            add_own(alloc, &mut places, &face.own, place)?;
        }
    }
    Ok(places)
}

/// Adds the own constants of the theory at a place.
fn add_own(
    alloc: Global,
    places: &mut IndexMap<Path, Option<usize>>,
    own: &FlatSig,
    place: usize,
) -> Result<(), Memory>
    ensures { OnOk result ((path : meant.Path) → place_in places.new.entries path ≡ with_own place path (place_in places.old.entries path) (read_signature own.now)) }
{
    for index in 0..own.len() {
        if let Some(decl) = own.at(index) {
            add_constant(alloc, places, decl, place)?;
        }
    }
    Ok(())
}

/// Adds a constant of the theory at a place.
fn add_constant(
    alloc: Global,
    places: &mut IndexMap<Path, Option<usize>>,
    decl: &FlatDecl,
    place: usize,
) -> Result<(), Memory>
    ensures { OnOk result ((path : meant.Path) → place_in places.new.entries path ≡ with_declaration place path (place_in places.old.entries path) (read_declaration decl.now)) }
{
    let next = with_next(places.get(&decl.name.path).copied(), place);
    places.insert(decl.name.path.copy(alloc)?, next)?;
    Ok(())
}

/// The place of the only theory that has a path, where the theory at a place has it too.
fn with_next(known: Option<Option<usize>>, place: usize) -> Option<usize>
    ensures { result ≡ next_place place known }
{
    match known {
        None => Some(place),
        Some(Some(first)) => { if first == place { Some(place) } else { None } }
        Some(None) => None,
    }
}
