//! Answers of modules, by name.
ghost use Rattle.std.specs.Prelude.{◌≡◌, ◌∷◌, ◌++◌, ◌↔◌, ◌≤◌, [], length, slice_get, IfErr, OnErr, OnOk, IsNone};
ghost use Rattle.std.specs.Option.{option_copied, option_map};
ghost use Rattle.name_meaning.specs.Rows.{IsTable};

use lf_terms::Name;
use name_table::NameTable;
use std::alloc::Global;
use std::marker::Model;

/// Names in byte order, each with its answer, or with none where the module is absent; seen as the list of these pairs.
#[derive(Drop)]
pub struct Answers<A> {
    rows: NameTable<Option<A>>,
}

impl<A> Model for Answers<A> {
    ghost use Rattle.std.specs.Prelude.{List, ℕ, Option};

    ghost Value = { List (List ℕ × Option A) };

    ghost view = { λ a. a.rows };
}

impl<A: Drop> Answers<A> {
    /// No answers. It takes no memory.
    pub fn new(alloc: Global) -> Self
        ensures { result ≡ [] }
    {
        Answers {
            rows: NameTable::new(alloc),
        }
    }

    /// Adds the answer of a name that is above the last one, or hands both back for want of memory.
    pub fn push(&mut self, name: Name, answer: Option<A>) -> Result<(), (Name, Option<A>)>
        requires { IsTable (self.old ++ (name, answer) ∷ []) }
        ensures ok { OnOk result (self.new ≡ self.old ++ (name, answer) ∷ []) }
        ensures err { OnErr result (self.new ≡ self.old) }
        ensures back { IfErr result (λ back. back ≡ (name, answer)) }
    {
        self.rows.push(name, answer)
    }

    /// The number of names.
    pub fn len(&self) -> usize
        ensures len { result ≡ length self.now }
        ensures ordered { IsTable self.now }
    {
        self.rows.len()
    }

    /// The name at a place, counted from 0, with its answer. None exactly where the place is past the end.
    pub fn at(&self, i: usize) -> Option<(&Name, Option<&A>)>
        ensures row { option_map (λ row. (row.0.now, option_copied row.1)) result ≡ slice_get self.now i }
    {
        let (name, answer) = self.rows.at(i)?;
        Some((name, answer.as_ref()))
    }
}
