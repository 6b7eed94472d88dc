//! Names that a theory which is being built has already.
ghost use Rattle.std.specs.Prelude.{◌≡◌, ◌∷◌, [], IfOk, is_some};
ghost use Rattle.term_trees.specs.Readings.{read_signature};
ghost use Rattle.library_meaning.specs.Faces.{structure_of};
ghost use Rattle.library_meaning.specs.Resolution.{own_at};
ghost use Rattle.verdict_meaning.specs.Modules as modules;
ghost use Rattle.mmt_syntax.specs.Readings.{read_written};
ghost use Rattle.mmt_interface.specs.Readings.{read_structures, read_theory};
ghost use Rattle.module_verdicts.specs.Answers.{IsNamed, Passes};

use crate::fault::refused;
use lf_terms::{Memory, Name, Path, QName};
use link_setting::LinkFault;
use mmt_interface::{Rule, StructFace, TheoryFace};
use mmt_syntax::{Written, first_name};
use std::alloc::Global;

/// The test that no constant and no structure declared above has the declared name.
pub(crate) fn unused_test(alloc: Global, here: &TheoryFace, name: &Written) -> Result<(), LinkFault>
    requires { IsNamed (read_theory here.now) }
    ensures { Passes result (modules.unused_test (read_theory here.now) (read_written name.now)) }
{
    if is_used(alloc, here, first_name(name))? {
        return Err(refused(alloc, name.span, Rule::DuplicateName, &name.path));
    }
    Ok(())
}

/// Whether a constant or a structure declared above has the name. A constant is looked up by a hash table.
fn is_used(alloc: Global, here: &TheoryFace, name: &Name) -> Result<bool, Memory>
    requires { IsNamed (read_theory here.now) }
    ensures { IfOk result (λ used. used ≡ modules.is_used (read_theory here.now) name.now) }
{
    Ok(has_constant(alloc, here, name)? || has_structure(here.structs.as_slice(), name))
}

/// Whether the theory has an own constant of this one name.
fn has_constant(alloc: Global, here: &TheoryFace, name: &Name) -> Result<bool, Memory>
    requires { IsNamed (read_theory here.now) }
    ensures { IfOk result (λ found. found ≡ is_some (own_at (read_signature here.now.own) (name.now ∷ []))) }
{
    let constant = own_name(alloc, &here.name, name)?;
    Ok(here.own.get(&constant).is_some())
}

/// The constant of this one name in a theory.
pub(crate) fn own_name(alloc: Global, theory: &Name, name: &Name) -> Result<QName, Memory>
    ensures { IfOk result (λ constant. constant ≡ record { theory = theory.now; path = name.now ∷ [] }) }
{
    Ok(QName {
        theory: theory.copy(alloc)?,
        path: Path::new(alloc, name.copy(alloc)?)?,
    })
}

/// Whether one of the structures has this name.
fn has_structure(structures: &[StructFace], name: &Name) -> bool
    ensures { result ≡ is_some (structure_of (read_structures structures.now) name.now) }
{
    for structure in structures {
        if structure.name == *name {
            return true;
        }
    }
    false
}
