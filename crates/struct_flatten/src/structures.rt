//! A structure, flattened.
ghost use Rattle.std.specs.Prelude.{◌≡◌, ◌++◌, false, IfOk, IsSome, OnErr, OnOk};
ghost use Rattle.lf_meaning.specs.HeadMaps.{HeadMap as MeantMap};
ghost use Rattle.text_meaning.specs.Trees.{first_name};
ghost use Rattle.library_meaning.specs.Faces.{own_part, theory_of};
ghost use Rattle.link_laws.proofs.Onces.{Once};
ghost use Rattle.link_meaning.specs.LinkMaps.{IsMapOfLink};
ghost use Rattle.link_meaning.specs.Passes as passes;
ghost use Rattle.verdict_meaning.specs.Modules.{is_used};
ghost use Rattle.term_trees.specs.Readings.{read_map, read_signature};
ghost use Rattle.mmt_syntax.specs.Readings.{read_assigns};
ghost use Rattle.mmt_interface.specs.CoherentFaces.{AreCoherent, IsCoherentHere};
ghost use Rattle.mmt_interface.specs.Readings.{environment_of, read_structure, read_theory};
ghost use Rattle.morphism.specs.Below.Answers.{Links, RefusesNothing};
ghost use Rattle.struct_flatten.specs.Answers.{setting_of, Flattens, HasStructure, KeepsTyped};
ghost use Rattle.struct_flatten.specs.Steps.{induced_into, with_face, IsBegunFrom};

use crate::induced::add_induced;
use lf_terms::{HeadMap, Memory};
use mmt_interface::{Faces, StructFace, TheoryFace};
use mmt_syntax::{StructDecl, first_name};
use morphism::{LinkFault, Scope, Setting, link_map};
use std::alloc::Global;

/// Adds a structure to the theory that is being built: one induced constant for each own constant of its domain, in order,
/// and the structure's face with its map. The faces are coherent, and so is the theory so far; the domain is an accepted
/// theory, and the name is unused. Ok exactly where a map meets the equations of the link, and with that one; else `Broken`
/// is the first test that is false, and the theory stays as it is, as for want of memory. Where all that the faces tell is
/// well typed, and the theory is so far, it stays so, and the map carries typing from the domain to it.
pub fn flatten(
    alloc: Global,
    faces: &Faces,
    here: &mut TheoryFace,
    decl: &StructDecl,
) -> Result<(), LinkFault>
    requires coherent { AreCoherent faces.now }
    requires here { IsCoherentHere faces.now here.old }
    requires domain { IsSome (theory_of (environment_of faces.now) (first_name decl.now.domain.path)) }
    requires unused { is_used (read_theory here.old) (first_name decl.now.name.path) ≡ false }
    ensures answer { Flattens (environment_of faces.now) (read_theory here.old) decl.now (read_theory here.new) result (passes.link_map (setting_of (environment_of faces.now) (read_theory here.old) decl.now) (read_assigns decl.now.assigns)) }
    ensures map { OnOk result ((along : MeantMap) × IsMapOfLink (setting_of (environment_of faces.now) (read_theory here.old) decl.now) (read_assigns decl.now.assigns) along × HasStructure (environment_of faces.now) (read_theory here.old) decl.now along (read_theory here.new)) }
    ensures only { (along : MeantMap) → IsMapOfLink (setting_of (environment_of faces.now) (read_theory here.old) decl.now) (read_assigns decl.now.assigns) along → RefusesNothing result }
    ensures unchanged { OnErr result (here.new ≡ here.old) }
    ensures typed { OnOk result (KeepsTyped (environment_of faces.now) (read_theory here.old) decl.now (read_theory here.new)) }
{
    let map = map_of(alloc, faces, &*here, decl)?;
    let face = face_with(alloc, decl, map)?;
    Ok(add_structure(alloc, faces, here, face)?)
}

/// The map of the structure's link, over the theory so far.
fn map_of(
    alloc: Global,
    faces: &Faces,
    here: &TheoryFace,
    decl: &StructDecl,
) -> Result<HeadMap, LinkFault>
    requires coherent { AreCoherent faces.now }
    requires here { IsCoherentHere faces.now here.now }
    requires domain { IsSome (theory_of (environment_of faces.now) (first_name decl.now.domain.path)) }
    ensures { Links read_map result (passes.link_map (setting_of (environment_of faces.now) (read_theory here.now) decl.now) (read_assigns decl.now.assigns)) }
{
    let setting = Setting {
        here: Some(here),
        domain: first_name(&decl.domain),
        codomain: &here.name,
        scope: Scope {
            own: &here.own,
            includes: &here.includes,
            faces,
        },
        structure: Some(first_name(&decl.name)),
        at: &decl.name,
    };
    link_map(alloc, &setting, &decl.assigns)
}

/// The face of a structure with this map.
fn face_with(alloc: Global, decl: &StructDecl, map: HeadMap) -> Result<StructFace, Memory>
    ensures { IfOk result (λ face. read_structure face ≡ record { name = first_name decl.now.name.path; domain = first_name decl.now.domain.path; map = read_map map }) }
{
    let Ok(name) = first_name(&decl.name).copy(alloc) else {
        drop(map);
        return Err(Memory);
    };
    let Ok(domain) = first_name(&decl.domain).copy(alloc) else {
        drop(map);
        drop(name);
        return Err(Memory);
    };
    Ok(StructFace { name, domain, map })
}

/// Adds what a structure with this face induces, none of which is there yet, and then the face. For want of memory the theory stays
/// as it is.
fn add_structure(
    alloc: Global,
    faces: &Faces,
    here: &mut TheoryFace,
    face: StructFace,
) -> Result<(), Memory>
    requires { Once (read_signature here.old.own ++ induced_into here.old.name face.name (read_map face.map) (own_part (environment_of faces.now) face.domain)) }
    ensures ok { OnOk result (read_theory here.new ≡ with_face (environment_of faces.now) (read_theory here.old) (read_structure face)) }
    ensures err { OnErr result (here.new ≡ here.old) }
{
    let len = here.own.len();
    match add_parts(alloc, faces, here, face) {
        Ok(()) => Ok(()),
        Err(fault) => {
            here.own.truncate(len);
            Err(fault)
        }
    }
}

/// Adds what a structure with this face induces, and then the face. For want of memory some induced constants may have been
/// added.
fn add_parts(
    alloc: Global,
    faces: &Faces,
    here: &mut TheoryFace,
    face: StructFace,
) -> Result<(), Memory>
    requires { Once (read_signature here.old.own ++ induced_into here.old.name face.name (read_map face.map) (own_part (environment_of faces.now) face.domain)) }
    ensures ok { OnOk result (read_theory here.new ≡ with_face (environment_of faces.now) (read_theory here.old) (read_structure face)) }
    ensures err { OnErr result (IsBegunFrom here.old here.new) }
{
    match add_induced(alloc, faces, &here.name, &face, &mut here.own) {
        Ok(()) => here.structs.add(face),
        Err(fault) => {
            drop(face);
            Err(fault)
        }
    }
}
