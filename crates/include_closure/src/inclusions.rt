//! The inclusions of a theory, one after another.
ghost use Rattle.std.specs.Prelude.{◌≡◌, List, OnErr, OnOk};
ghost use Rattle.name_meaning.specs.Names.{Name as BytesOfName};
ghost use Rattle.library_meaning.specs.Closure.{with_inclusion};
ghost use Rattle.mmt_interface.specs.CoherentFaces.{AreCoherent};
ghost use Rattle.mmt_interface.specs.Readings.{environment_of};
ghost use Rattle.include_closure.specs.Inclusions.{IsReady, Knows};

use crate::additions::Additions;
use crate::closure::{add_behind, add_first};
use lf_terms::{Memory, Name, Names};
use mmt_interface::Faces;
use std::alloc::Global;

/// What is known of a closure between the inclusions that make it: from the second one on its names, in a hash table. So the
/// inclusions of a theory take time that grows with what they bring, and not with the closure at each of them.
#[derive(Drop)]
pub struct Inclusions {
    pub additions: Option<Additions>,
}

impl Inclusions {
    /// Nothing is known yet. It takes no memory.
    pub fn new() -> Inclusions
        ensures { (names : List BytesOfName) → Knows result names }
    {
        Inclusions { additions: None }
    }

    /// One more inclusion: appends what the theory includes, in order, and then the theory, each name unless it is there. For
    /// want of memory the list stays as it is. The faces are coherent, and the list is that of the inclusion before.
    pub fn add(
        &mut self,
        alloc: Global,
        faces: &Faces,
        so_far: &mut Names,
        theory: &Name,
    ) -> Result<(), Memory>
        requires coherent { AreCoherent faces.now }
        requires known { Knows self.old so_far.old }
        ensures ok { OnOk result (so_far.new ≡ with_inclusion (environment_of faces.now) so_far.old theory.now) }
        ensures err { OnErr result (so_far.new ≡ so_far.old) }
        ensures known { OnOk result (Knows self.new so_far.new) }
    {
        self.prepare(alloc, so_far)?;
        match &mut self.additions {
            Some(additions) => add_behind(alloc, faces, so_far, additions, theory),
            None => add_first(alloc, faces, so_far, theory),
        }
    }

    /// Makes the table, unless it is there or no name is.
    fn prepare(&mut self, alloc: Global, so_far: &Names) -> Result<(), Memory>
        requires { Knows self.old so_far.now }
        ensures { OnOk result (IsReady self.new so_far.now) }
    {
        if self.additions.is_none() && so_far.len() > 0 {
            self.additions = Some(Additions::to(alloc, so_far.as_slice())?);
        }
        Ok(())
    }
}
