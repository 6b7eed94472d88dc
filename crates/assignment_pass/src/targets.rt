//! The targets of assignments: what of the domain they name, and whether two of them overlap.
ghost use Rattle.std.specs.Prelude.{◌≡◌, ◌∷◌, [], IfOk, OnOk};
ghost use Rattle.std.specs.Option.{is_some};
ghost use Rattle.std.specs.Option.{option_map};
ghost use Rattle.library_meaning.specs.Coherence.{IsCoherent};
ghost use Rattle.library_meaning.specs.Faces.{own_part};
ghost use Rattle.library_meaning.specs.Resolution.{own_at};
ghost use Rattle.link_meaning.specs.Assignments as passes;
ghost use Rattle.term_trees.specs.Readings.{read_signature};
ghost use Rattle.mmt_syntax.specs.Readings.{read_assign};
ghost use Rattle.mmt_interface.specs.Readings.{environment_of};
ghost use Rattle.link_setting.specs.Below.Readings.{read_link};
ghost use Rattle.link_setting.specs.Readings.{read_setting};
ghost use Rattle.assignment_pass.specs.Steps.{AreTabled, earlier_targets, is_end};

use indexmap::IndexSet;
use lf_terms::{FlatSig, Memory, Path};
use link_setting::{Link, PathTree, Setting, structures_link};
use mmt_syntax::Assign;
use std::alloc::Global;

/// The targets of the assignments so far, in order, and a tree of them in which the places of whole targets are marked.
#[derive(Drop)]
pub(crate) struct Targets<'a> {
    paths: Vec<&'a Path>,
    tree: PathTree<'a>,
    ends: IndexSet<usize>,
}

impl<'a> Targets<'a> {
    pub(crate) fn new(alloc: Global) -> Targets<'a>
        ensures targets { earlier_targets result ≡ [] }
        ensures tabled { AreTabled result }
    {
        Targets {
            paths: Vec::new(alloc),
            tree: PathTree::new(alloc),
            ends: IndexSet::new(alloc),
        }
    }

    /// Adds the target of an assignment, if it has one.
    pub(crate) fn add(&mut self, assign: &'a Assign) -> Result<(), Memory>
        ensures targets { OnOk result (earlier_targets self.new ≡ passes.with_target (earlier_targets self.old) (read_assign assign.now)) }
        ensures tabled { OnOk result (AreTabled self.old → AreTabled self.new) }
    {
        match assign {
            Assign::Include(_) => Ok(()),
            Assign::Struct { target, .. } => self.add_path(&target.path),
            Assign::Const { target, .. } => self.add_path(&target.path),
        }
    }

    fn add_path(&mut self, path: &'a Path) -> Result<(), Memory>
        ensures targets { OnOk result (earlier_targets self.new ≡ path.now ∷ earlier_targets self.old) }
        ensures tabled { OnOk result (AreTabled self.old → AreTabled self.new) }
    {
        let place = self.tree.add(path)?;
        self.ends.insert(place)?;
        self.paths.push(path)?;
        Ok(())
    }

    /// Whether no target overlaps the path. Time grows with the path alone.
    pub(crate) fn are_apart_from(&self, path: &Path) -> bool
        requires { AreTabled self.now }
        ensures { result ≡ passes.is_free (earlier_targets self.now) path.now }
    {
        let mut at = Some(0);
        for name in path.as_slice() {
            if self.has_end(at) {
                return false;
            }
            at = self.tree.next(at, name);
        }
        at.is_none()
    }

    /// Whether there is a place, and a whole target leads to it.
    fn has_end(&self, at: Option<usize>) -> bool
        ensures { result ≡ is_end self.now at }
    {
        match at {
            Some(place) => self.ends.contains(&place),
            None => false,
        }
    }
}

/// Whether the domain has an own constant at a path.
pub(crate) fn has_constant(setting: &Setting<'_>, path: &Path) -> bool
    ensures { result ≡ is_some (own_at (own_part (read_setting setting.now).environment setting.now.domain.now) path.now) }
{
    match setting.scope.faces.theory(setting.domain) {
        Some(face) => declares(&face.own, path),
        None => false,
    }
}

/// Whether an own part has a constant at a path.
fn declares(own: &FlatSig, path: &Path) -> bool
    ensures { result ≡ is_some (own_at (read_signature own.now) path.now) }
{
    own.first_at(path.as_slice()).is_some()
}

/// The own link of a structure of the domain, or of a structure of the domain of such a one, and so on. None exactly where
/// there is none. The faces are coherent.
pub(crate) fn structure_at(
    alloc: Global,
    setting: &Setting<'_>,
    path: &Path,
) -> Result<Option<Link>, Memory>
    requires { IsCoherent (read_setting setting.now).environment }
    ensures { IfOk result (λ link. option_map read_link link ≡ passes.structure_at (read_setting setting.now) path.now) }
{
    let faces = setting.scope.faces;
    match faces.theory(setting.domain) {
        Some(face) => {
            structures_link(alloc, faces, setting.domain, &face.structs, path.as_slice())
        }
        None => Ok(None),
    }
}
