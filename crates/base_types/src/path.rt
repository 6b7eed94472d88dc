//! Paths: names that are joined by dots where they are written. Most have one, and take no memory of their own. Copies of a longer one
//! share its names, and the number by which it is hashed.
ghost use Rattle.std.specs.Prelude.{◌≡◌, ◌<◌, ◌∷◌, ◌++◌, [], length, nat_eq, IfErr, IfOk, OnErr, OnOk};
ghost use Rattle.std.specs.Hash as fed;
ghost use Rattle.std.specs.Cmp.{partial_equiv_from_equiv};
ghost use Rattle.std.specs.Cmp.Lexicographic.{pointwise, lists_equiv, nat_list_eq_equiv};
ghost use Rattle.base_types.specs.Digests.{digest_of};
ghost use Rattle.base_types.specs.HeldNames.{held_names, HasDigest, IsHeld};

use crate::digest::digest_of;
use crate::{Arc, Memory, Name};
use std::alloc::Global;
use std::hash::{Hash, Hasher};
use std::marker::Model;
use std::slice;

/// At least one name, seen as the list of them.
#[derive(Debug, Drop)]
pub struct Path {
    names: Held,
}

/// How names are held: one in the path itself, more in a row that copies of the path share.
#[derive(Debug, Drop)]
enum Held {
    One { name: Name, alloc: Global },
    More { row: Arc<Row>, alloc: Global },
}

/// Names, with their digest.
#[derive(Debug, Drop)]
struct Row {
    names: Vec<Name>,
    digest: u64,
}

impl Model for Path {
    ghost use Rattle.std.specs.Prelude.{List, ℕ};
    ghost use Rattle.base_types.specs.HeldNames.{held_names, IsHeld};

    ghost Value = { List (List ℕ) };

    ghost view = { λ p. held_names p.names };

    ghost invariant = { λ p. IsHeld p.names };
}

impl Path {
    /// The path of one name.
    pub fn new(alloc: Global, first: Name) -> Result<Path, Memory>
        ensures { IfOk result (λ path. path ≡ first ∷ []) }
    {
        Ok(Path {
            names: Held::One { name: first, alloc },
        })
    }

    /// The path of copies of these names. Copies of the path share them where there are two or more.
    pub fn of(alloc: Global, first: &Name, more: &[Name]) -> Result<Path, Memory>
        ensures { IfOk result (λ path. path ≡ first.now ∷ more.now) }
    {
        if more.is_empty() {
            return Path::new(alloc, first.copy(alloc)?);
        }
        let mut names = Vec::with_capacity(alloc, more.len() + 1)?;
        names.push_reserved(first.copy(alloc)?);
        add_copies(alloc, &mut names, more)?;
        Ok(Path {
            names: shared(alloc, names)?,
        })
    }

    /// Adds a name at the end, or hands it back for want of memory. Time grows with the number of names.
    pub fn push(&mut self, name: Name) -> Result<(), Name>
        ensures ok { OnOk result (self.new ≡ self.old ++ name ∷ []) }
        ensures err { OnErr result (self.new ≡ self.old) }
        ensures back { IfErr result (λ back. back ≡ name) }
    {
        match longer(self.allocator(), self.as_slice(), &name) {
            Ok(longer) => {
                self.names = longer;
                Ok(())
            }
            Err(Memory) => Err(name),
        }
    }

    /// The number of names, which is not 0.
    pub fn len(&self) -> usize
        ensures len { result ≡ length self.now }
        ensures some { 0 < result }
    {
        self.as_slice().len()
    }

    /// The names, from the first to the last.
    pub fn as_slice(&self) -> &[Name]
        ensures names { result.now ≡ self.now }
        ensures some { 0 < length result.now }
    {
        match &self.names {
            Held::One { name, .. } => slice::from_ref(name),
            Held::More { row, .. } => row.get().names.as_slice(),
        }
    }

    /// An equal path. It takes no memory.
    pub fn copy(&self, _alloc: Global) -> Result<Path, Memory>
        ensures { IfOk result (λ path. path ≡ self.now) }
    {
        let names = match &self.names {
            Held::One { name, alloc } => Held::One {
                name: name.copy(*alloc)?,
                alloc: *alloc,
            },
            Held::More { row, alloc } => Held::More {
                row: row.share()?,
                alloc: *alloc,
            },
        };
        Ok(Path { names })
    }

    /// The memory from which the path's names are, or would be.
    fn allocator(&self) -> Global {
        match &self.names {
            Held::One { alloc, .. } => *alloc,
            Held::More { alloc, .. } => *alloc,
        }
    }

    /// The digest of the names. It takes constant time, but for the bytes of a single name.
    fn digest(&self) -> u64
        ensures { result ≡ digest_of self.now }
    {
        match &self.names {
            Held::One { name, .. } => digest_of(slice::from_ref(name)),
            Held::More { row, .. } => row.get().digest,
        }
    }
}

/// Names that copies can share, of which there are two at least, with their digest.
fn shared(alloc: Global, names: Vec<Name>) -> Result<Held, Memory>
    requires { 1 < length names.items }
    ensures names { IfOk result (λ held. held_names held ≡ names.items) }
    ensures held { IfOk result IsHeld }
{
    let digest = digest_of(names.as_slice());
    Ok(Held::More {
        row: Arc::new(alloc, Row { names, digest })?,
        alloc,
    })
}

/// Copies of names, of which there is one at least, and of one more behind them.
fn longer(alloc: Global, names: &[Name], last: &Name) -> Result<Held, Memory>
    requires { 0 < length names.now }
    ensures names { IfOk result (λ held. held_names held ≡ names.now ++ last.now ∷ []) }
    ensures held { IfOk result IsHeld }
{
    let mut longer = Vec::with_capacity(alloc, names.len() + 1)?;
    add_copies(alloc, &mut longer, names)?;
    longer.push(last.copy(alloc)?)?;
    shared(alloc, longer)
}

/// Adds copies of names at the end.
fn add_copies(alloc: Global, to: &mut Vec<Name>, names: &[Name]) -> Result<(), Memory>
    ensures { OnOk result (to.new.items ≡ to.old.items ++ names.now) }
{
    for name in names {
        to.push(name.copy(alloc)?)?;
    }
    Ok(())
}

/// Whether two rows have the same names: rows with different digests have not.
fn same_row(row: &Row, other: &Row) -> bool
    requires first { HasDigest row.now }
    requires second { HasDigest other.now }
    ensures { result ≡ pointwise (pointwise nat_eq) row.now.names.items other.now.names.items }
{
    row.digest == other.digest && row.names.as_slice() == other.names.as_slice()
}

impl PartialEq for Path {
    ghost eq = { pointwise (pointwise nat_eq) };

    ghost laws = { partial_equiv_from_equiv (lists_equiv nat_list_eq_equiv) };

    fn eq(&self, other: &Self) -> bool {
        match (&self.names, &other.names) {
            (Held::One { name, .. }, Held::One { name: second, .. }) => name == second,
            (Held::More { row, .. }, Held::More { row: second, .. }) => same_row(
                row.get(),
                second.get(),
            ),
            _ => false,
        }
    }
}

impl Eq for Path {
    ghost laws = { lists_equiv nat_list_eq_equiv };
}

impl Hash for Path {
    ghost use Rattle.std.specs.Cmp.Lexicographic.{pointwise_decides};
    ghost use Rattle.std.specs.Cmp.{unsigned_Decides};
    ghost use Rattle.std.specs.Hash.{same_Alike};

    ghost hash_input = { λ path. fed.u64 (digest_of path) };

    ghost respects_eq = { (same_Alike (λ path. fed.u64 (digest_of path)) (pointwise_decides (pointwise_decides unsigned_Decides))).fed };

    fn hash<H: Hasher>(&self, state: &mut H) {
        state.write_u64(self.digest());
    }
}
