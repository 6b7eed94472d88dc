//! Names among which most others are found to be missing without a look at them.
ghost use Rattle.std.specs.Prelude.{◌≡◌, ◌<◌, ◌∷◌, [], true, IfOk};
ghost use Rattle.name_meaning.specs.Names.{Name, is_among, is_ascending, with_name};
ghost use Rattle.list_laws.proofs.Members.{Member};
ghost use Rattle.module_graph.specs.Merging.{IsMerge};
ghost use Rattle.verdict_board.specs.Marks.{bit_of, AreMarked};

use crate::search::contains;
use lf_terms::{Arc, Memory, Name, Names};
use module_graph::{merged, with_one};
use std::alloc::Global;
use std::marker::Model;

/// Names that are shared, and beside them 64 bits, of which each name sets one; seen as the names.
#[derive(Drop)]
pub struct MarkedNames {
    names: Arc<Names>,
    marks: u64,
}

impl Model for MarkedNames {
    ghost use Rattle.std.specs.Prelude.{List, ℕ};
    ghost use Rattle.verdict_board.specs.Marks.{AreMarked};

    ghost Value = { List (List ℕ) };

    ghost view = { λ m. m.names };

    ghost invariant = { λ m. AreMarked m.names m.marks };
}

impl MarkedNames {
    /// These names, with the bit of each.
    pub fn new(alloc: Global, names: Names) -> Result<MarkedNames, Memory>
        ensures { IfOk result (λ marked. marked ≡ names) }
    {
        let marks = marks_of(&names);
        Ok(MarkedNames {
            names: Arc::new(alloc, names)?,
            marks,
        })
    }

    /// One name, with its bit.
    pub fn one(alloc: Global, name: &Name) -> Result<MarkedNames, Memory>
        ensures { IfOk result (λ marked. marked ≡ name.now ∷ []) }
    {
        let mut names = Vec::with_capacity(alloc, 1)?;
        names.push(name.copy(alloc)?)?;
        MarkedNames::new(alloc, Names::from_vec(names))
    }

    /// These names, which stand in byte order, and others, with the bits of both.
    pub fn merged(&self, alloc: Global, other: &MarkedNames) -> Result<MarkedNames, Memory>
        requires own { is_ascending self.now ≡ true }
        requires other { is_ascending other.now ≡ true }
        ensures { IfOk result (λ marked. IsMerge self.now other.now marked) }
    {
        let names = merged(alloc, self.names.get(), other.names.get())?;
        Ok(MarkedNames {
            names: Arc::new(alloc, names)?,
            marks: self.marks | other.marks,
        })
    }

    /// These names, which stand in byte order, with one more at its place. Where it is one of them they are shared.
    pub fn with(&self, alloc: Global, name: &Name) -> Result<MarkedNames, Memory>
        requires { is_ascending self.now ≡ true }
        ensures { IfOk result (λ marked. marked ≡ with_name name.now self.now) }
    {
        match with_one(alloc, self.names.get(), name)? {
            Some(names) => Ok(MarkedNames {
                names: Arc::new(alloc, names)?,
                marks: self.marks | 1 << bit_of(name),
            }),
            None => self.share(),
        }
    }

    /// The names.
    pub fn get(&self) -> &Names
        ensures { result.now ≡ self.now }
    {
        self.names.get()
    }

    /// The same names once more, which are not copied.
    pub fn share(&self) -> Result<MarkedNames, Memory>
        ensures { IfOk result (λ marked. marked ≡ self.now) }
    {
        Ok(MarkedNames {
            names: self.names.share()?,
            marks: self.marks,
        })
    }

    /// Whether a name, the place of whose bit is given, is among them. They are read only where the bit is set.
    pub fn contains(&self, name: &Name, bit: u32) -> bool
        requires sorted { is_ascending self.now ≡ true }
        requires bit { bit ≡ bit_of name.now }
        ensures { result ≡ is_among self.now name.now }
    {
        self.may_contain(bit) && contains(self.names.get(), name)
    }

    /// Whether the bit at a place is set.
    fn may_contain(&self, bit: u32) -> bool
        requires { bit < 64 }
        ensures { (name : Name) → bit ≡ bit_of name → Member name self.now → result ≡ true }
    {
        (self.marks >> bit) & 1 == 1
    }
}

/// The bits of these names.
fn marks_of(names: &Names) -> u64
    ensures { AreMarked names.now result }
{
    let mut marks = 0;
    for name in names.as_slice() {
        marks |= 1 << bit_of(name);
    }
    marks
}

/// The place of the bit that a name sets, counted from 0.
pub fn bit_of(name: &Name) -> u32
    ensures bit { result ≡ bit_of name.now }
    ensures within { result < 64 }
{
    let mut bit = 0;
    for byte in name.as_str().as_bytes() {
        bit = (bit * 31 + u32::from(*byte)) % 64;
    }
    bit
}
