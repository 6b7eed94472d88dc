//! The flat text of accepted modules.
ghost use Rattle.std.specs.Prelude.{◌≡◌, IfOk};
ghost use Rattle.printing_meaning.specs.PrintedTables as printed;
ghost use Rattle.mmt_interface.specs.Readings.{environment_of, read_theory, read_view};
ghost use Rattle.report_text.specs.FlatTexts.{known_text, IsAccepted};

use crate::counts::{flat_count, theory_count};
use crate::declarations::{declarations, included_declarations, mappings};
use crate::seen::seen_from;
use crate::told::counted_line;
use lf_terms::{Bytes, Memory, Name};
use mmt_interface::{Faces, Interface, TheoryFace, Verdict, ViewFace};
use std::alloc::Global;
use term_text::Seen;

/// The flat text of an accepted module: of a theory `N @V flat K` and a line for each of the K declarations of its flat signature,
/// of a view `N @V map K` and a line for each of the K constants of its domain with its value. It is written into one buffer, and
/// no flat signature is made.
pub fn flat_text(alloc: Global, faces: &Faces, name: &Name, version: u32) -> Result<Bytes, Memory>
    requires { IsAccepted (environment_of faces.now name.now) }
    ensures { IfOk result (λ text. text ≡ known_text (environment_of faces.now) name.now version (environment_of faces.now name.now)) }
{
    match faces.get(name) {
        Some(Verdict::Accepted(interface)) => match interface.get() {
            Interface::Theory { face, .. } => theory_text(alloc, faces, name, version, face),
            Interface::View(face) => view_text(alloc, faces, name, version, face),
        },
        Some(Verdict::Refused(_)) | None => Ok(Bytes::new(alloc)),
    }
}

/// The own parts of what the theory includes, in order, and then its own part.
fn theory_text(
    alloc: Global,
    faces: &Faces,
    name: &Name,
    version: u32,
    face: &TheoryFace,
) -> Result<Bytes, Memory>
    ensures { IfOk result (λ text. text ≡ printed.theory_text (environment_of faces.now) name.now version (read_theory face.now)) }
{
    let count = flat_count(faces, face)?;
    let seen = Seen::new(alloc, &face.name, &face.own)?;
    let mut text = counted_line(alloc, name, version, b" flat ", count)?;
    included_declarations(alloc, faces, &mut text, &seen, face.includes.as_slice())?;
    declarations(alloc, &mut text, &seen, &face.own)?;
    Ok(text)
}

/// The names of the constants are seen from the domain, and their values from the codomain.
fn view_text(
    alloc: Global,
    faces: &Faces,
    name: &Name,
    version: u32,
    face: &ViewFace,
) -> Result<Bytes, Memory>
    ensures { IfOk result (λ text. text ≡ printed.view_text (environment_of faces.now) name.now version (read_view face.now)) }
{
    let count = theory_count(faces, &face.domain)?;
    let domain = seen_from(alloc, faces, &face.domain)?;
    let codomain = seen_from(alloc, faces, &face.codomain)?;
    let mut text = counted_line(alloc, name, version, b" map ", count)?;
    mappings(alloc, &mut text, &domain, &codomain, &face.map)?;
    Ok(text)
}
