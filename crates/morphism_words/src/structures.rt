//! The links of structures.
ghost use Rattle.std.specs.Prelude.{◌≡◌, None, IfOk};
ghost use Rattle.std.specs.Option.{option_map};
ghost use Rattle.translation_meaning.specs.Unmapped.{unmapped_map};
ghost use Rattle.library_meaning.specs.Faces.{structure_of};
ghost use Rattle.library_meaning.specs.Coherence.{IsCoherent};
ghost use Rattle.library_meaning.specs.Words as meant;
ghost use Rattle.library_meaning.specs.Words.{followed_by};
ghost use Rattle.mmt_interface.specs.Readings.{environment_of, read_structure, read_structures};
ghost use Rattle.morphism_words.specs.CoherentLinks.{AreStructures};
ghost use Rattle.morphism_words.specs.LentLinks.{read_lent};
ghost use Rattle.morphism_words.specs.Readings.{read_link};

use crate::Link;
use crate::lent::{LentLink, LentMap};
use lf_terms::{Memory, Name};
use mmt_interface::{Faces, StructFace, Structs};
use std::alloc::Global;

/// The link of a row of structures, from the outermost one on, in the theory of this name with these structures: of one
/// structure its own, of further ones that of the rest in its domain, followed by its own. None exactly where a structure is
/// not there; of the empty row none. The faces are coherent, and these structures have coherent maps into one signature. It recurses
/// as deep as the row is long.
pub fn structures_link(
    alloc: Global,
    faces: &Faces,
    theory: &Name,
    structs: &Structs,
    path: &[Name],
) -> Result<Option<Link>, Memory>
    requires coherent { IsCoherent (environment_of faces.now) }
    requires structures { AreStructures (environment_of faces.now) (read_structures structs.now) }
    ensures { IfOk result (λ link. option_map read_link link ≡ meant.structures_link (environment_of faces.now) theory.now (read_structures structs.now) path.now) }
{
    match lent_structures_link(alloc, faces, theory, structs, path)? {
        Some(link) => Ok(Some(link.into_link(alloc)?)),
        None => Ok(None),
    }
}

/// The link of a row of structures, with the map of a single structure borrowed.
pub(crate) fn lent_structures_link<'a>(
    alloc: Global,
    faces: &'a Faces,
    theory: &'a Name,
    structs: &'a Structs,
    path: &[Name],
) -> Result<Option<LentLink<'a>>, Memory>
    requires coherent { IsCoherent (environment_of faces.now) }
    requires structures { AreStructures (environment_of faces.now) (read_structures structs.now) }
    ensures { IfOk result (λ link. option_map read_lent link ≡ meant.structures_link (environment_of faces.now) theory.now (read_structures structs.now) path.now) }
{
    let [name, rest @ ..] = path else {
        return Ok(None);
    };
    let Some(structure) = structure(structs, name) else {
        return Ok(None);
    };
    if rest.is_empty() {
        return Ok(Some(structure_link(theory, structure)));
    }
    let Some(face) = faces.theory(&structure.domain) else {
        return Ok(None);
    };
    match lent_structures_link(alloc, faces, &structure.domain, &face.structs, rest)? {
        Some(inner) => Ok(Some(behind(alloc, inner, theory, structure)?)),
        None => Ok(None),
    }
}

/// The link of a row in the domain of a structure, followed by the structure's own into the theory of this name, which declares it.
/// It lets both go by calls, since an exit with a link in hand has a proof for each form of its map.
fn behind<'a>(
    alloc: Global,
    inner: LentLink<'a>,
    theory: &'a Name,
    structure: &'a StructFace,
) -> Result<LentLink<'a>, Memory>
    requires { unmapped_map (meant.structure_link theory.now (read_structure structure.now)).map (read_lent inner).map ≡ None }
    ensures { IfOk result (λ link. read_lent link ≡ followed_by (read_lent inner.entry) (meant.structure_link theory.now (read_structure structure.now))) }
{
    let outer = structure_link(theory, structure);
    let link = inner.followed_by(alloc, &outer);
    drop(outer);
    drop(inner);
    link
}

/// The structure of a name. None exactly where there is none.
fn structure<'a>(structs: &'a Structs, name: &Name) -> Option<&'a StructFace>
    ensures { option_map (λ structure. read_structure structure.now) result ≡ structure_of (read_structures structs.now) name.now }
{
    for structure in structs.as_slice() {
        if structure.name == *name {
            return Some(structure);
        }
    }
    None
}

/// The link of a structure into the theory of this name, which declares it.
fn structure_link<'a>(theory: &'a Name, structure: &'a StructFace) -> LentLink<'a>
    ensures { read_lent result ≡ meant.structure_link theory.now (read_structure structure.now) }
{
    LentLink {
        domain: &structure.domain,
        codomain: theory,
        map: LentMap::Borrowed(&structure.map),
    }
}
