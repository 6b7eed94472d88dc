//! A table with one row for each name, sorted by the names: look-up by name takes logarithmic time, look-up by place
//! constant time.
ghost use Rattle.std.specs.Prelude.{◌≡◌, ◌<◌, ◌∷◌, ◌++◌, [], length, slice_get, IfErr, IfOk, OnErr, OnOk, IsTrue, is_some, true, Some};
ghost use Rattle.std.specs.Option.{option_copied, option_map};
ghost use Rattle.std.specs.Ordering.{nat_cmp};
ghost use Rattle.std.specs.Cmp.Lexicographic.{slice_cmp};
ghost use Rattle.name_meaning.specs.Rows.{row_names, row_of, with_row, without_row, IsTable, IsGap};

use lf_terms::Name;
use std::alloc::Global;
use std::cmp::Ordering;
use std::marker::Model;

/// Names in byte order, each once, and a value under each; seen as the list of these pairs.
#[derive(Debug, Drop)]
pub struct NameTable<V> {
    rows: Vec<(Name, V)>,
}

impl<V> Model for NameTable<V> {
    ghost use Rattle.std.specs.Prelude.{List, ℕ};
    ghost use Rattle.name_meaning.specs.Rows.{IsTable};

    ghost Value = { List (List ℕ × V) };

    ghost view = { λ t. t.rows.items };

    ghost invariant = { λ t. IsTable t.rows.items };
}

impl<V: Drop> NameTable<V> {
    /// No rows. It takes no memory.
    pub fn new(alloc: Global) -> Self
        ensures { result ≡ [] }
    {
        NameTable {
            rows: Vec::new(alloc),
        }
    }

    /// The number of rows.
    pub fn len(&self) -> usize
        ensures len { result ≡ length self.now }
        ensures ordered { IsTable self.now }
    {
        self.rows.len()
    }

    /// Where the name is: the place of its row, counted from 0. Or, where it has none, the place at which a row of it
    /// would stand.
    pub fn place(&self, name: &Name) -> Result<usize, usize>
        ensures found { IfOk result (λ place. slice_get (row_names self.now) place ≡ Some name.now) }
        ensures within { IfOk result (λ place. place < length self.now) }
        ensures absent { IfErr result (IsGap (row_names self.now) name.now) }
    {
        self.rows.binary_search_by(
            |row: &(Name, V)| -> Ordering
                ensures { result ≡ slice_cmp nat_cmp row.now.0 name.entry.now }
            { row.0.cmp(name) },
        )
    }

    /// The value under a name. None exactly where the name is not there.
    pub fn get(&self, name: &Name) -> Option<&V>
        ensures value { option_copied result ≡ row_of self.now name.now }
        ensures ordered { IsTable self.now }
    {
        match self.place(name) {
            Ok(place) => Some(&self.rows[place].1),
            Err(_) => None,
        }
    }

    /// The row at a place. None exactly where the place is past the end.
    pub fn at(&self, place: usize) -> Option<(&Name, &V)>
        ensures { option_map (λ row. (row.0.now, row.1.now)) result ≡ slice_get self.now place }
    {
        let row = self.rows.get(place)?;
        Some((&row.0, &row.1))
    }

    /// The row at a place that is not past the end.
    pub fn row_at(&self, place: usize) -> (&Name, &V)
        requires { place < length self.now }
        ensures { slice_get self.now place ≡ Some (result.0.now, result.1.now) }
    {
        let row = &self.rows[place];
        (&row.0, &row.1)
    }

    /// Puts a value under a name, in place of the one that was there; or hands both back for want of memory, and changes
    /// nothing.
    pub fn insert(&mut self, name: Name, value: V) -> Result<(), (Name, V)>
        ensures ok { OnOk result (self.new ≡ with_row name value self.old) }
        ensures err { OnErr result (self.new ≡ self.old) }
        ensures back { IfErr result (λ back. back ≡ (name, value)) }
    {
        match self.place(&name) {
            Ok(place) => {
                self.rows[place] = (name, value);
                Ok(())
            }
            Err(place) => match self.rows.insert(place, (name, value)) {
                Ok(()) => Ok(()),
                Err(failed) => Err(failed.value),
            },
        }
    }

    /// Puts a value in place of the one under a name that is there. It takes no memory.
    pub fn replace(&mut self, name: &Name, value: V)
        requires { is_some (row_of self.old name.now) ≡ true }
        ensures { self.new ≡ with_row name.now value self.old }
    {
        match self.place(name) {
            Ok(place) => {
                let row = &mut self.rows[place];
                row.1 = value;
            }
            Err(_) => unreachable!(),
        }
    }

    /// Puts a value under a name that is above all others; or hands both back for want of memory, and changes nothing.
    pub fn push(&mut self, name: Name, value: V) -> Result<(), (Name, V)>
        requires { IsTable (self.old ++ (name, value) ∷ []) }
        ensures ok { OnOk result (self.new ≡ self.old ++ (name, value) ∷ []) }
        ensures err { OnErr result (self.new ≡ self.old) }
        ensures back { IfErr result (λ back. back ≡ (name, value)) }
    {
        match self.rows.push((name, value)) {
            Ok(()) => Ok(()),
            Err(failed) => Err(failed.value),
        }
    }

    /// Takes a name's row out. True exactly where the name was there.
    pub fn remove(&mut self, name: &Name) -> bool
        ensures rows { self.new ≡ without_row name.now self.old }
        ensures there { result ≡ is_some (row_of self.old name.now) }
    {
        match self.place(name) {
            Ok(place) => {
                drop(self.rows.remove(place));
                true
            }
            Err(_) => false,
        }
    }
}
