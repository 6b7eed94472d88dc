//! The theories of a case, and the one in which expressions stand.

use include_closure::add;
use lf_terms::{Arc, FlatSig, Name, Names, Sequence};
use mmt_interface::{Faces, Interface, TheoryFace, Verdict};
use names::Scope;
use std::alloc::Global;
use test_texts::found::signature;
use test_texts::{Case, succeeds};

/// What is shown, and what a theory that is being built has of its own and includes.
#[derive(Drop)]
pub(crate) struct Library {
    pub(crate) faces: Box<Faces>,
    pub(crate) own: Box<FlatSig>,
    pub(crate) includes: Names,
}

impl Library {
    pub(crate) fn scope(&self) -> Scope<'_> {
        Scope {
            own: &self.own,
            includes: &self.includes,
            faces: &self.faces,
        }
    }

    /// Whether what a case shows could be shown, and what it includes be included.
    fn is_filled(&mut self, alloc: Global, case: &Case<'_>) -> bool {
        are_shown(alloc, &mut self.faces, case)
            && are_included(
                alloc,
                &self.faces,
                &mut self.includes,
                case.behind("within"),
            )
    }
}

/// The file `own` has the own constants of the theory that is being built, and `within` names what it includes. Every other file is a
/// theory that is shown.
pub(crate) fn library_of(alloc: Global, case: &Case<'_>) -> Option<Box<Library>> {
    let mut library = empty_library(alloc, own_of(case))?;
    if library.is_filled(alloc, case) {
        Some(library)
    } else {
        drop(library);
        None
    }
}

fn empty_library(alloc: Global, own: &str) -> Option<Box<Library>> {
    let faces = Box::new(alloc, Faces::new(alloc)).ok()?;
    match signature(alloc, own) {
        Some(own) => {
            let includes = Names::new(alloc);
            let library = Library {
                faces,
                own,
                includes,
            };
            Box::new(alloc, library).ok()
        }
        None => {
            drop(faces);
            None
        }
    }
}

/// The own constants.
fn own_of<'a>(case: &'a Case<'_>) -> &'a str {
    for file in case.files.as_slice() {
        if file.0 == "own" {
            return text_of(file.1.as_slice());
        }
    }
    ""
}

fn text_of(bytes: &[u8]) -> &str {
    str::from_utf8(bytes).unwrap_or("no text")
}

/// Whether the theories of a case could be shown.
fn are_shown(alloc: Global, faces: &mut Faces, case: &Case<'_>) -> bool {
    for file in case.files.as_slice() {
        if file.0 != "own" && !is_shown(alloc, faces, file.0, text_of(file.1.as_slice())) {
            return false;
        }
    }
    is_chain(alloc, faces, case.behind("chain")) && is_star(alloc, faces, case.behind("star"))
}

/// Whether so many theories could be shown, each of which includes the last.
fn is_chain(alloc: Global, faces: &mut Faces, count: &str) -> bool {
    let mut all = true;
    for i in 0..count.parse::<u32>().unwrap_or(0) {
        all = all && is_linked(alloc, faces, i);
    }
    all
}

fn is_linked(alloc: Global, faces: &mut Faces, i: u32) -> bool {
    if i == 0 {
        return is_shown(alloc, faces, "T0", "");
    }
    match format!(in alloc; "T{i} T{}", i.wrapping_sub(1)) {
        Ok(named) => is_shown(alloc, faces, named.as_str(), ""),
        Err(_) => false,
    }
}

/// Whether so many theories with a constant each could be shown, and one more that includes all of them.
fn is_star(alloc: Global, faces: &mut Faces, count: &str) -> bool {
    let mut named = String::new(alloc);
    let mut all = named.push_str("U").is_ok();
    for i in 0..count.parse::<u32>().unwrap_or(0) {
        all = all && is_ray(alloc, faces, i) && write!(named, " T{i}").is_ok();
    }
    all && (count.is_empty() || is_shown(alloc, faces, named.as_str(), "U.c : type"))
}

fn is_ray(alloc: Global, faces: &mut Faces, i: u32) -> bool {
    let name = format!(in alloc; "T{i}");
    let own = format!(in alloc; "T{i}.c : type");
    match (&name, &own) {
        (Ok(name), Ok(own)) => is_shown(alloc, faces, name.as_str(), own.as_str()),
        _ => false,
    }
}

/// The closure of these inclusions, in their order.
pub(crate) fn closure(alloc: Global, faces: &Faces, inclusions: &str) -> Option<Names> {
    let mut includes = Names::new(alloc);
    if are_included(alloc, faces, &mut includes, inclusions) {
        Some(includes)
    } else {
        drop(includes);
        None
    }
}

fn are_included(alloc: Global, faces: &Faces, includes: &mut Names, inclusions: &str) -> bool {
    let mut all = true;
    for word in inclusions.split_whitespace() {
        all = all && is_included(alloc, faces, includes, word);
    }
    all
}

fn is_included(alloc: Global, faces: &Faces, includes: &mut Names, word: &str) -> bool {
    match Name::new(alloc, word) {
        Ok(theory) => add(alloc, faces, includes, &theory).is_ok(),
        Err(_) => false,
    }
}

/// Whether a theory with these own constants could be shown. Behind its name stand those that it includes.
fn is_shown(alloc: Global, faces: &mut Faces, named: &str, text: &str) -> bool {
    let (name, inclusions) = named.split_once(' ').unwrap_or((named, ""));
    match shown(alloc, faces, name, inclusions, text) {
        Some(verdict) => is_added(alloc, faces, name, verdict),
        None => false,
    }
}

/// That a theory is accepted.
fn shown(
    alloc: Global,
    faces: &Faces,
    name: &str,
    inclusions: &str,
    text: &str,
) -> Option<Verdict> {
    let face = Box::into_inner(face_of(alloc, faces, name, inclusions, text)?);
    Some(Verdict::Accepted(Arc::new(alloc, Interface::Theory { face, size: 0 }).ok()?))
}

fn face_of(
    alloc: Global,
    faces: &Faces,
    name: &str,
    inclusions: &str,
    text: &str,
) -> Option<Box<TheoryFace>> {
    let own = signature(alloc, text)?;
    match closure(alloc, faces, inclusions) {
        Some(includes) => named_face(alloc, name, own, includes),
        None => {
            drop(own);
            None
        }
    }
}

fn named_face(
    alloc: Global,
    name: &str,
    own: Box<FlatSig>,
    includes: Names,
) -> Option<Box<TheoryFace>> {
    match Name::new(alloc, name) {
        Ok(name) => {
            let face = TheoryFace {
                name,
                own: Box::into_inner(own),
                includes,
                structs: Sequence::new(alloc),
            };
            Box::new(alloc, face).ok()
        }
        Err(_) => {
            drop(own);
            drop(includes);
            None
        }
    }
}

/// Whether a verdict is added under a name.
pub(crate) fn is_added(alloc: Global, faces: &mut Faces, name: &str, verdict: Verdict) -> bool {
    match Name::new(alloc, name) {
        Ok(name) => succeeds(faces.push(name, verdict)),
        Err(_) => {
            drop(verdict);
            false
        }
    }
}
