//! Inclusion closures.
ghost use Rattle.std.specs.Prelude.{◌≡◌, ◌∷◌, ◌++◌, [], IfOk, List, OnErr, OnOk};
ghost use Rattle.name_meaning.specs.Names.{Name as BytesOfName};
ghost use Rattle.library_meaning.specs.Closure as meaning;
ghost use Rattle.library_meaning.specs.Closure.{with_inclusion};
ghost use Rattle.mmt_interface.specs.CoherentFaces.{AreCoherent};
ghost use Rattle.mmt_interface.specs.Readings.{environment_of};
ghost use Rattle.include_closure.specs.Additions.{Extends};

use crate::additions::Additions;
use lf_terms::{Memory, Name, Names};
use mmt_interface::Faces;
use std::alloc::Global;
use std::mem;

/// One more inclusion: appends what the theory includes, in order, and then the theory, each name unless it is there. For want
/// of memory the list stays as it is. Time grows with the list and with what the theory includes.
pub fn add(alloc: Global, faces: &Faces, so_far: &mut Names, theory: &Name) -> Result<(), Memory>
    ensures ok { OnOk result (so_far.new ≡ with_inclusion (environment_of faces.now) so_far.old theory.now) }
    ensures err { OnErr result (so_far.new ≡ so_far.old) }
{
    let mut additions = Additions::to(alloc, so_far.as_slice())?;
    add_behind(alloc, faces, so_far, &mut additions, theory)
}

/// Whether the list has the theory. It takes no memory.
pub fn sees(includes: &Names, theory: &Name) -> bool
    ensures { result ≡ meaning.sees includes.now theory.now }
{
    includes.as_slice().contains(theory)
}

/// One more inclusion, of which nothing is added yet to the names that are there. Time grows with what the theory includes.
pub(crate) fn add_behind(
    alloc: Global,
    faces: &Faces,
    so_far: &mut Names,
    additions: &mut Additions,
    theory: &Name,
) -> Result<(), Memory>
    requires { Extends additions.old so_far.old so_far.old }
    ensures ok { OnOk result (so_far.new ≡ with_inclusion (environment_of faces.now) so_far.old theory.now) }
    ensures err { OnErr result (so_far.new ≡ so_far.old) }
    ensures known { OnOk result (Extends additions.new so_far.new so_far.new) }
{
    bring(alloc, faces, additions, theory)?;
    append(alloc, so_far, &mut additions.added)?;
    Ok(())
}

/// The first inclusion. The faces are coherent, so that a closure has each name once, and none of them is the theory's.
pub(crate) fn add_first(
    alloc: Global,
    faces: &Faces,
    so_far: &mut Names,
    theory: &Name,
) -> Result<(), Memory>
    requires coherent { AreCoherent faces.now }
    requires first { so_far.old ≡ [] }
    ensures ok { OnOk result (so_far.new ≡ with_inclusion (environment_of faces.now) so_far.old theory.now) }
    ensures err { OnErr result (so_far.new ≡ so_far.old) }
{
    let names = brought(alloc, faces, theory)?;
    *so_far = Names::from_vec(names);
    Ok(())
}

/// Adds what an inclusion of the theory brings.
fn bring(
    alloc: Global,
    faces: &Faces,
    additions: &mut Additions,
    theory: &Name,
) -> Result<(), Memory>
    ensures { OnOk result ((front whole : List BytesOfName) → Extends additions.old front whole → Extends additions.new front (with_inclusion (environment_of faces.now) whole theory.now)) }
{
    if let Some(face) = faces.theory(theory) {
        additions.add_all(alloc, face.includes.as_slice())?;
    }
    additions.add(alloc, theory)?;
    Ok(())
}

/// What an inclusion of the theory brings.
fn brought(alloc: Global, faces: &Faces, theory: &Name) -> Result<Vec<Name>, Memory>
    ensures { IfOk result (λ names. names.items ≡ meaning.brought (environment_of faces.now) theory.now) }
{
    match faces.theory(theory) {
        Some(face) => copies(alloc, face.includes.as_slice(), theory),
        None => copies(alloc, &[], theory),
    }
}

/// Copies of names, and behind them of one more.
fn copies(alloc: Global, names: &[Name], last: &Name) -> Result<Vec<Name>, Memory>
    ensures { IfOk result (λ copies. copies.items ≡ names.now ++ last.now ∷ []) }
{
    let mut copies = Vec::with_capacity(alloc, names.len() + 1)?;
    for name in names {
        copies.push(name.copy(alloc)?)?;
    }
    copies.push(last.copy(alloc)?)?;
    Ok(copies)
}

/// Appends names, all of them or none for want of memory.
fn append(alloc: Global, so_far: &mut Names, added: &mut Vec<Name>) -> Result<(), Memory>
    ensures ok { OnOk result (so_far.new ≡ so_far.old ++ added.old.items) }
    ensures err { OnErr result (so_far.new ≡ so_far.old) }
    ensures left { OnOk result (added.new.items ≡ []) }
{
    let mut names = mem::replace(so_far, Names::new(alloc)).into_vec();
    let appended = names.append(added);
    *so_far = Names::from_vec(names);
    appended?;
    Ok(())
}
