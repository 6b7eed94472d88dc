//! Graphs: names with their direct dependencies.
ghost use Rattle.std.specs.Prelude.{◌≡◌, [], length, slice_get, OnErr, OnOk, is_some, true, ◌<◌, List, ℕ, IfErr, IfOk, Some};
ghost use Rattle.std.specs.Option.{option_copied, option_map};
ghost use Rattle.name_meaning.specs.Rows.{row_names, row_of, with_row, without_row, IsTable, IsGap};

use lf_terms::{Arc, Memory, Name, Names};
use name_table::NameTable;
use std::alloc::Global;
use std::marker::Model;

/// Names in byte order, each with its direct dependencies in order; seen as the list of these pairs. Copies share the rows.
#[derive(Drop)]
pub struct Graph {
    rows: NameTable<Arc<Names>>,
}

impl Model for Graph {
    ghost use Rattle.std.specs.Prelude.{List, ℕ};

    ghost Value = { List (List ℕ × List (List ℕ)) };

    ghost view = { λ g. g.rows };
}

impl Graph {
    /// No names. It takes no memory.
    pub fn new(alloc: Global) -> Graph
        ensures { result ≡ [] }
    {
        Graph {
            rows: NameTable::new(alloc),
        }
    }

    /// Puts a name with its direct dependencies, in place of those that it had. For want of memory nothing changes.
    pub fn set(&mut self, alloc: Global, name: Name, deps: Names) -> Result<(), Memory>
        ensures ok { OnOk result (self.new ≡ with_row name deps self.old) }
        ensures err { OnErr result (self.new ≡ self.old) }
    {
        let row = Arc::new(alloc, deps)?;
        match self.rows.insert(name, row) {
            Ok(()) => Ok(()),
            Err(_) => Err(Memory),
        }
    }

    /// Puts other direct dependencies in place of those of a name that is there. It takes no memory.
    pub fn replace(&mut self, name: &Name, deps: Arc<Names>)
        requires { is_some (row_of self.old name.now) ≡ true }
        ensures { self.new ≡ with_row name.now deps self.old }
    {
        self.rows.replace(name, deps);
    }

    /// Takes a name out. True exactly where it was there.
    pub fn remove(&mut self, name: &Name) -> bool
        ensures rows { self.new ≡ without_row name.now self.old }
        ensures there { result ≡ is_some (row_of self.old name.now) }
    {
        self.rows.remove(name)
    }

    /// An equal graph, which shares the names and their lists of dependencies.
    pub fn copy(&self, alloc: Global) -> Result<Graph, Memory>
        ensures { IfOk result (λ graph. graph ≡ self.now) }
    {
        let mut rows = NameTable::new(alloc);
        for place in 0..self.rows.len() {
            let (name, dependencies) = self.rows.row_at(place);
            match rows.push(name.copy(alloc)?, dependencies.share()?) {
                Ok(()) => {}
                Err(_) => return Err(Memory),
            }
        }
        Ok(Graph { rows })
    }

    /// The number of names.
    pub fn len(&self) -> usize
        ensures len { result ≡ length self.now }
        ensures ordered { IsTable self.now }
    {
        self.rows.len()
    }

    /// The direct dependencies of a name. None exactly where the graph lacks the name.
    pub fn row(&self, name: &Name) -> Option<&Names>
        ensures row { option_copied result ≡ row_of self.now name.now }
        ensures ordered { IsTable self.now }
    {
        match self.rows.get(name) {
            Some(dependencies) => Some(dependencies.get()),
            None => None,
        }
    }

    /// Where the name is, or where it would stand.
    pub fn place(&self, name: &Name) -> Result<usize, usize>
        ensures found { IfOk result (λ place. slice_get (row_names self.now) place ≡ Some name.now) }
        ensures within { IfOk result (λ place. place < length self.now) }
        ensures absent { IfErr result (IsGap (row_names self.now) name.now) }
    {
        self.rows.place(name)
    }

    /// The name at a place that is not past the end.
    pub fn name_at(&self, place: usize) -> &Name
        requires { place < length self.now }
        ensures { slice_get (row_names self.now) place ≡ Some result.now }
    {
        self.rows.row_at(place).0
    }

    /// The direct dependencies of the name at a place that is not past the end.
    pub fn dependencies_at(&self, place: usize) -> &Names
        requires { place < length self.now }
        ensures { (name : List ℕ) × (slice_get self.now place ≡ Some (name, result.now)) }
    {
        self.rows.row_at(place).1.get()
    }
}
