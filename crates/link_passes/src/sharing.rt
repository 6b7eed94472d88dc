//! The fourth pass: what shared structures share.
ghost use Rattle.std.specs.Prelude.{◌≡◌, None, IfOk};
ghost use Rattle.list_laws.proofs.Members.{Member};
ghost use Rattle.link_meaning.specs.Assignments as links;
ghost use Rattle.translation_meaning.specs.Unmapped.{unmapped_map, unmapped_value};
ghost use Rattle.library_meaning.specs.Faces.{includes_of, own_part, own_parts, theory_of};
ghost use Rattle.translation_meaning.specs.Translation as meant;
ghost use Rattle.lf_meaning.specs.Equality as equality;
ghost use Rattle.link_meaning.specs.Passes as passes;
ghost use Rattle.link_meaning.specs.Refusals.{each};
ghost use Rattle.term_trees.specs.Readings.{read_declaration, read_map, read_signature, read_value};
ghost use Rattle.mmt_interface.specs.Readings.{environment_of};
ghost use Rattle.link_setting.specs.Below.Readings.{read_link};
ghost use Rattle.link_setting.specs.Readings.{read_all_assigned, read_assigned, read_setting};
ghost use Rattle.link_setting.specs.Answers.{Links};
ghost use Rattle.link_passes.specs.SharedImages.{SharesMapped};
ghost use Rattle.link_passes.specs.Steps.{share};

use crate::labels::demand;
use crate::translated::translated_value;
use lf_terms::{FlatDecl, FlatSig, HeadMap, Memory, Name, Value, same_value};
use link_setting::{Assigned, Link, LinkFault, Setting};
use mmt_interface::{Faces, Rule};
use std::alloc::Global;

/// The tests of all sharing assignments, in order.
pub(crate) fn shared_tests(
    alloc: Global,
    setting: &Setting<'_>,
    along: &HeadMap,
    assigned: &[Assigned<'_>],
) -> Result<(), LinkFault>
    requires { (item : links.Assigned) → Member item (read_all_assigned assigned.now) → SharesMapped (read_map along.now) item }
    ensures { Links (λ done. done) result (each (passes.shared_test (read_setting setting.now) (read_map along.now)) (read_all_assigned assigned.now)) }
{
    for item in assigned {
        shared_test(alloc, setting, along, item)?;
    }
    Ok(())
}

/// What a shared structure's domain includes has one image by both ways.
fn shared_test(
    alloc: Global,
    setting: &Setting<'_>,
    along: &HeadMap,
    item: &Assigned<'_>,
) -> Result<(), LinkFault>
    requires { SharesMapped (read_map along.now) (read_assigned item.now) }
    ensures { Links (λ done. done) result (passes.shared_test (read_setting setting.now) (read_map along.now) (read_assigned item.now)) }
{
    match item {
        Assigned::Covering { .. } => Ok(()),
        Assigned::Sharing {
            target,
            structure,
            first,
            by,
        } => {
            let faces = setting.scope.faces;
            let holds = included_shared(alloc, faces, along, structure, by)?;
            demand(
                alloc,
                holds,
                setting,
                target,
                *first,
                Rule::MorphismsDisagree,
            )
        }
        Assigned::Giving { .. } => Ok(()),
    }
}

/// Whether the structure and the link agree on what the structure's domain includes.
fn included_shared(
    alloc: Global,
    faces: &Faces,
    along: &HeadMap,
    structure: &Link,
    by: &Link,
) -> Result<bool, Memory>
    requires { unmapped_map (read_map along.now) (read_link structure.now).map ≡ None }
    ensures { IfOk result (λ holds. holds ≡ share (read_map along.now) (read_link structure.now) (read_link by.now) (own_parts (environment_of faces.now) (includes_of (theory_of (environment_of faces.now) (read_link structure.now).domain)))) }
{
    match faces.theory(&structure.domain) {
        Some(face) => {
            theories_shared(alloc, faces, along, structure, by, face.includes.as_slice())
        }
        None => Ok(true),
    }
}

/// Whether they agree on the own parts of these theories.
fn theories_shared(
    alloc: Global,
    faces: &Faces,
    along: &HeadMap,
    structure: &Link,
    by: &Link,
    theories: &[Name],
) -> Result<bool, Memory>
    requires { unmapped_map (read_map along.now) (read_link structure.now).map ≡ None }
    ensures { IfOk result (λ holds. holds ≡ share (read_map along.now) (read_link structure.now) (read_link by.now) (own_parts (environment_of faces.now) theories.now)) }
{
    for theory in theories {
        if !theory_shared(alloc, faces, along, structure, by, theory)? {
            return Ok(false);
        }
    }
    Ok(true)
}

/// Whether they agree on the own part of a theory.
fn theory_shared(
    alloc: Global,
    faces: &Faces,
    along: &HeadMap,
    structure: &Link,
    by: &Link,
    theory: &Name,
) -> Result<bool, Memory>
    requires { unmapped_map (read_map along.now) (read_link structure.now).map ≡ None }
    ensures { IfOk result (λ holds. holds ≡ share (read_map along.now) (read_link structure.now) (read_link by.now) (own_part (environment_of faces.now) theory.now)) }
{
    match faces.theory(theory) {
        Some(face) => constants_shared(alloc, along, structure, by, &face.own),
        None => Ok(true),
    }
}

/// Whether they agree on these constants.
fn constants_shared(
    alloc: Global,
    along: &HeadMap,
    structure: &Link,
    by: &Link,
    own: &FlatSig,
) -> Result<bool, Memory>
    requires { unmapped_map (read_map along.now) (read_link structure.now).map ≡ None }
    ensures { IfOk result (λ holds. holds ≡ share (read_map along.now) (read_link structure.now) (read_link by.now) (read_signature own.now)) }
{
    for index in 0..own.len() {
        if let Some(decl) = own.at(index) {
            if !constant_shared(alloc, along, structure, by, decl)? {
                return Ok(false);
            }
        }
    }
    Ok(true)
}

/// Whether the structure's image of a constant, translated, is the image that the link gives.
fn constant_shared(
    alloc: Global,
    along: &HeadMap,
    structure: &Link,
    by: &Link,
    decl: &FlatDecl,
) -> Result<bool, Memory>
    requires { unmapped_map (read_map along.now) (read_link structure.now).map ≡ None }
    ensures { IfOk result (λ holds. holds ≡ passes.shares (read_map along.now) (read_link structure.now) (read_link by.now) (read_declaration decl.now)) }
{
    match (structure.map.get(&decl.name), by.map.get(&decl.name)) {
        (Some(image), Some(given)) => { is_translated(alloc, along, &image.value, &given.value) }
        _ => Ok(false),
    }
}

/// Whether the value, translated, is the other one. That of a constant is compared where it stands in the map.
fn is_translated(
    alloc: Global,
    along: &HeadMap,
    value: &Value,
    other: &Value,
) -> Result<bool, Memory>
    requires { unmapped_value (read_map along.now) (read_value value.now) ≡ None }
    ensures { IfOk result (λ same. same ≡ equality.same_value (meant.translate_value (read_map along.now) (read_value value.now)) (read_value other.now)) }
{
    if let Value::Same(constant) = value {
        if let Some(image) = along.get(constant) {
            return Ok(same_value(&image.value, other));
        }
    }
    let translated = translated_value(alloc, along, value)?;
    let same = same_value(&translated, other);
    drop(translated);
    Ok(same)
}
