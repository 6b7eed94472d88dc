//! The verdicts that are known of modules, by name.
ghost use Rattle.std.specs.Prelude.{◌≡◌, ◌↔◌, ◌∷◌, ◌++◌, [], length, IfErr, IsErrOf, IsSome, None, OnErr, OnOk};
ghost use Rattle.std.specs.Option.{option_copied, option_map};
ghost use Rattle.name_meaning.specs.Rows.{row_of};
ghost use Rattle.library_meaning.specs.Faces.{theory_of, view_of};
ghost use Rattle.mmt_interface.specs.Readings.{read_theory, read_verdict, read_view, read_faces, environment_of, theory_under, view_under, handed_back, HasDistinctNames};
ghost use Rattle.mmt_interface.specs.declared.faces.FaceFault.TheVariants.{Twice};

use crate::{Interface, TheoryFace, Verdict, ViewFace};
use indexmap::IndexMap;
use lf_terms::{Memory, Name};
use std::alloc::Global;
use std::marker::Model;

/// Different names with verdicts, seen as the list of the pairs, in the order in which they came. A name that is not
/// there is that of an absent module.
#[derive(Debug, Drop)]
pub struct Faces {
    verdicts: IndexMap<Name, Verdict>,
}

impl Model for Faces {
    ghost use Rattle.std.specs.Prelude.{List, ℕ};
    ghost use Rattle.std.specs.Coded.{codes};
    ghost use Rattle.mmt_interface.specs.declared.verdict.Verdict.{Verdict};
    ghost use Rattle.mmt_interface.specs.contracts.verdict.Verdict as v;

    ghost Value = { List (List ℕ × Verdict) };

    ghost coded = { Prim.hlevel (codes, v.the_row.coded) };

    ghost view = { λ f. f.verdicts.entries };
}

/// Why a verdict was not added. It comes back with the name and the reason.
#[derive(Debug, Drop)]
pub enum FaceFault {
    /// The name has a verdict already.
    Twice(Name, Verdict),
    /// Want of memory.
    Memory(Name, Verdict),
}

impl Faces {
    /// No verdicts. It takes no memory.
    pub fn new(alloc: Global) -> Faces
        ensures { result ≡ [] }
    {
        Faces {
            verdicts: IndexMap::new(alloc),
        }
    }

    /// Makes room for so many more names, so that their table grows at once. It may find no memory.
    pub fn reserve(&mut self, additional: usize) -> Result<(), Memory>
        ensures { self.new ≡ self.old }
    {
        Ok(self.verdicts.reserve(additional)?)
    }

    /// Adds a name with its verdict at the end, or hands both back: `Twice` exactly where the name has a verdict
    /// already, `Memory` for want of memory.
    pub fn push(&mut self, name: Name, verdict: Verdict) -> Result<(), FaceFault>
        ensures ok { OnOk result (self.new ≡ self.old ++ (name, verdict) ∷ []) }
        ensures err { OnErr result (self.new ≡ self.old) }
        ensures twice { IsErrOf result (Twice name verdict) ↔ IsSome (row_of self.old name) }
        ensures back { IfErr result (λ fault. handed_back fault ≡ (name, verdict)) }
    {
        if self.verdicts.contains_key(&name) {
            return Err(FaceFault::Twice(name, verdict));
        }
        match self.push_new(name, verdict) {
            Ok(()) => Ok(()),
            Err((name, verdict)) => Err(FaceFault::Memory(name, verdict)),
        }
    }

    /// Adds a name that has no verdict yet, with its verdict, at the end, or hands both back for want of memory. It hashes the name
    /// once.
    pub fn push_new(&mut self, name: Name, verdict: Verdict) -> Result<(), (Name, Verdict)>
        requires { row_of self.old name ≡ None }
        ensures ok { OnOk result (self.new ≡ self.old ++ (name, verdict) ∷ []) }
        ensures err { OnErr result (self.new ≡ self.old) }
        ensures back { IfErr result (λ back. back ≡ (name, verdict)) }
    {
        match self.verdicts.insert(name, verdict) {
            Ok(previous) => {
                drop(previous);
                Ok(())
            }
            Err(failed) => Err(failed.value),
        }
    }

    /// The verdict of a name. None exactly where the name is not there. It takes expected constant time, by a hash
    /// table.
    pub fn get(&self, name: &Name) -> Option<&Verdict>
        ensures verdict { option_copied result ≡ row_of self.now name.now }
        ensures meaning { option_map (λ verdict. read_verdict verdict.now) result ≡ row_of (read_faces self.now) name.now }
    {
        self.verdicts.get(name)
    }

    /// The theory of a name. Some exactly where that module is an accepted theory. It takes expected constant time.
    pub fn theory(&self, name: &Name) -> Option<&TheoryFace>
        ensures face { option_copied result ≡ theory_under self.now name.now }
        ensures meaning { option_map (λ face. read_theory face.now) result ≡ theory_of (environment_of self.now) name.now }
    {
        match self.get(name)? {
            Verdict::Accepted(interface) => match interface.get() {
                Interface::Theory { face, .. } => Some(face),
                Interface::View(_) => None,
            },
            Verdict::Refused(_) => None,
        }
    }

    /// The view of a name. Some exactly where that module is an accepted view. It takes expected constant time.
    pub fn view(&self, name: &Name) -> Option<&ViewFace>
        ensures face { option_copied result ≡ view_under self.now name.now }
        ensures meaning { option_map (λ face. read_view face.now) result ≡ view_of (environment_of self.now) name.now }
    {
        match self.get(name)? {
            Verdict::Accepted(interface) => match interface.get() {
                Interface::Theory { .. } => None,
                Interface::View(face) => Some(face),
            },
            Verdict::Refused(_) => None,
        }
    }

    /// The number of names.
    pub fn len(&self) -> usize
        ensures len { result ≡ length self.now }
        ensures distinct { HasDistinctNames self.now }
    {
        self.verdicts.len()
    }
}
