//! The lines of declarations and of maps.
ghost use Rattle.std.specs.Prelude.{◌≡◌, ◌++◌, flat_map, OnOk};
ghost use Rattle.std.specs.Option.{option_copied, option_map};
ghost use Rattle.library_meaning.specs.Faces.{own_part, own_parts};
ghost use Rattle.printing_meaning.specs.PrintedTables as printed;
ghost use Rattle.term_trees.specs.Readings.{read_constant, read_declaration, read_map, read_mapping, read_signature, read_value};
ghost use Rattle.mmt_interface.specs.Readings.{environment_of};
ghost use Rattle.term_text.specs.Readings.{read_seen};
ghost use Rattle.report_text.specs.FlatTexts.{image_line};

use lf_terms::{Bytes, FlatDecl, FlatSig, HeadMap, Memory, Name, QName, Value};
use mmt_interface::Faces;
use std::alloc::Global;
use term_text::{Seen, class, constant, value};

/// Writes the declarations of the own parts of these theories, in order.
pub(crate) fn included_declarations(
    alloc: Global,
    faces: &Faces,
    out: &mut Bytes,
    seen: &Seen<'_>,
    theories: &[Name],
) -> Result<(), Memory>
    ensures { OnOk result (out.new ≡ out.old ++ flat_map (printed.declaration_line (read_seen seen.now)) (own_parts (environment_of faces.now) theories.now)) }
{
    for theory in theories {
        own_declarations(alloc, faces, out, seen, theory)?;
    }
    Ok(())
}

/// Writes the own declarations of the theory of this name. Another module has none.
fn own_declarations(
    alloc: Global,
    faces: &Faces,
    out: &mut Bytes,
    seen: &Seen<'_>,
    theory: &Name,
) -> Result<(), Memory>
    ensures { OnOk result (out.new ≡ out.old ++ flat_map (printed.declaration_line (read_seen seen.now)) (own_part (environment_of faces.now) theory.now)) }
{
    match faces.theory(theory) {
        Some(face) => declarations(alloc, out, seen, &face.own),
        None => Ok(()),
    }
}

/// Writes declarations, a line for each.
pub(crate) fn declarations(
    alloc: Global,
    out: &mut Bytes,
    seen: &Seen<'_>,
    own: &FlatSig,
) -> Result<(), Memory>
    ensures { OnOk result (out.new ≡ out.old ++ flat_map (printed.declaration_line (read_seen seen.now)) (read_signature own.now)) }
{
    for index in 0..own.len() {
        if let Some(decl) = own.at(index) {
            declaration(alloc, out, seen, decl)?;
        }
    }
    Ok(())
}

/// Writes `NAME : CLASS.`, or `NAME : CLASS = VALUE.`
fn declaration(
    alloc: Global,
    out: &mut Bytes,
    seen: &Seen<'_>,
    decl: &FlatDecl,
) -> Result<(), Memory>
    ensures { OnOk result (out.new ≡ out.old ++ printed.declaration_line (read_seen seen.now) (read_declaration decl.now)) }
{
    constant(out, seen, &decl.name)?;
    out.extend(b" : ")?;
    class(alloc, out, seen, &decl.class)?;
    definition(alloc, out, seen, decl.value.as_ref())?;
    out.extend(b".")?;
    out.extend(b"\n")
}

/// Writes ` = VALUE`, where there is a value.
fn definition(
    alloc: Global,
    out: &mut Bytes,
    seen: &Seen<'_>,
    given: Option<&Value>,
) -> Result<(), Memory>
    ensures { OnOk result (out.new ≡ out.old ++ printed.definition_text (read_seen seen.now) (option_map read_value (option_copied given.entry))) }
{
    match given {
        Some(given) => {
            out.extend(b" = ")?;
            value(alloc, out, seen, given)
        }
        None => Ok(()),
    }
}

/// Writes the constants of a map with their values, a line for each: the names seen from the domain, the values from the codomain.
pub(crate) fn mappings(
    alloc: Global,
    out: &mut Bytes,
    domain: &Seen<'_>,
    codomain: &Seen<'_>,
    map: &HeadMap,
) -> Result<(), Memory>
    ensures { OnOk result (out.new ≡ out.old ++ flat_map (printed.mapping_line (read_seen domain.now) (read_seen codomain.now)) (read_map map.now)) }
{
    for index in 0..map.len() {
        if let Some((name, image)) = map.at(index) {
            mapping(alloc, out, domain, codomain, name, &image.value)?;
        }
    }
    Ok(())
}

/// Writes `NAME := VALUE.`
fn mapping(
    alloc: Global,
    out: &mut Bytes,
    domain: &Seen<'_>,
    codomain: &Seen<'_>,
    name: &QName,
    image: &Value,
) -> Result<(), Memory>
    ensures { OnOk result (out.new ≡ out.old ++ image_line (read_seen domain.now) (read_seen codomain.now) (read_constant name.now) (read_value image.now)) }
{
    constant(out, domain, name)?;
    out.extend(b" := ")?;
    value(alloc, out, codomain, image)?;
    out.extend(b".")?;
    out.extend(b"\n")
}
