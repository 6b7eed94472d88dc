//! Flat signatures over the faces of libraries that are judged from their texts.
ghost use Rattle.mmt_interface.specs.CoherentFaces.{AreCoherent};

use crate::scratch::{library, put};
use edit_log::Log;
use include_closure::flat_of;
use lf_terms::{Bytes, FlatDecl, FlatSig, Name, QName};
use mmt_interface::Faces;
use module_check::scratch;
use std::alloc::{AllocError, Global};
use std::test::Fail;
use term_text::{Seen, value};

/// Modules, and of some of them the flat signature: how many constants it has, and which.
type Library = (
    &'static [(&'static str, &'static str)],
    &'static [(&'static str, &'static str)],
);

/// A diamond whose sides have constants of two names, and the worked diamond without and with a second `k`.
const LIBRARIES: &[Library] = &[
    (
        &[
            ("A", "%sig A = { a : type. }."),
            ("Q", "%sig Q = { q : type. }."),
            ("Z", "%sig Z = { z : type. }."),
            ("BQ", "%sig BQ = { b : type. q : type. }."),
            ("B", "%sig B = { %include A. k : type. b : type. }."),
            (
                "C",
                "%sig C = { %include A. k : type. %struct A : A. %struct B : Q. }.",
            ),
            (
                "D",
                "%sig D = { %include B. %include C. d : type. %struct B : BQ. %struct A : Z. }.",
            ),
        ],
        &[
            ("A", "A 1: A.a"),
            ("B", "B 3: A.a B.k B.b"),
            (
                "D",
                "D 10: A.a B.k B.b C.k C.A.a C.B.q D.d D.B.b D.B.q D.A.z",
            ),
        ],
    ),
    (
        &[
            ("A", "%sig A = { a : type. }."),
            ("B", "%sig B = { %include A. b : a. }."),
            ("C", "%sig C = { %include A. c : a. }."),
            ("D", "%sig D = { %include B. %include C. d : a. }."),
        ],
        &[("D", "D 4: A.a B.b C.c D.d")],
    ),
    (
        &[
            ("A", "%sig A = { a : type. }."),
            ("B", "%sig B = { %include A. b : a. k : type. }."),
            ("C", "%sig C = { %include A. c : a. k : type. }."),
            ("D", "%sig D = { %include B. %include C. d : B.k. }."),
        ],
        &[("D", "D 6: A.a B.b B.k C.c C.k D.d")],
    ),
];

fn are_all_flat(alloc: Global) -> Result<bool, Fail> {
    let mut all = true;
    for &(modules, flats) in LIBRARIES {
        let log = library(alloc, modules)?;
        all = all && are_flat(alloc, &log, flats)?;
    }
    Ok(all)
}

/// Whether the modules of a log have these flat signatures.
fn are_flat(alloc: Global, log: &Log, flats: &[(&str, &str)]) -> Result<bool, Fail> {
    let faces = scratch(alloc, log)?;
    let mut all = true;
    for &(theory, wanted) in flats {
        all = all && is_flat(alloc, &faces, theory, wanted)?;
    }
    Ok(all)
}

fn is_flat(alloc: Global, faces: &Faces, theory: &str, wanted: &str) -> Result<bool, Fail>
    requires coherent { AreCoherent faces.now }
{
    let name = Name::new(alloc, theory)?;
    let signature = flat_of(alloc, faces, &name)?;
    let text = flat_text(alloc, theory, &signature)?;
    Ok(text.as_slice() == wanted.as_bytes())
}

/// The constants, and if the last one has a value, that value on a line of its own.
fn flat_text(alloc: Global, theory: &str, signature: &FlatSig) -> Result<Bytes, Fail> {
    let mut text = format!(in alloc; "{theory} {}:", signature.len())?;
    for index in 0..signature.len() {
        if let Some(decl) = signature.at(index) {
            push_constant(&mut text, &decl.name)?;
        }
    }
    let mut bytes = Bytes::from_vec(text.into_bytes());
    push_last(alloc, &mut bytes, signature)?;
    Ok(bytes)
}

/// The theory of a constant and its path, with dots between.
fn push_constant(text: &mut String, name: &QName) -> Result<(), AllocError> {
    write!(text, " {}", name.theory.as_str())?;
    for part in name.path.as_slice() {
        write!(text, ".{}", part.as_str())?;
    }
    Ok(())
}

fn push_last(alloc: Global, text: &mut Bytes, signature: &FlatSig) -> Result<(), Fail> {
    match signature.at(signature.len().saturating_sub(1)) {
        Some(
            FlatDecl {
                value: Some(last),
                ..
            },
        ) => {
            let elsewhere = Name::new(alloc, "t")?;
            text.push(b'\n')?;
            value(alloc, text, &Seen::new(alloc, &elsewhere, signature)?, last)?;
            Ok(())
        }
        _ => Ok(()),
    }
}

/// A theory that includes 1,000, each of which has a constant.
fn is_star_flat(alloc: Global) -> Result<bool, Fail> {
    let log = star(alloc)?;
    let wanted = counted(alloc, "U 1001:", (" T", ".c"), " U.c")?;
    are_flat(alloc, &log, &[("U", wanted.as_str())])
}

fn star(alloc: Global) -> Result<Box<Log>, Fail> {
    let text = counted(alloc, "%sig U = {", (" %include T", "."), " c : type. }.")?;
    let mut log = library(alloc, &[("U", text.as_str())])?;
    for i in 0..1000 {
        put_ray(alloc, &mut log, i)?;
    }
    Ok(log)
}

fn put_ray(alloc: Global, log: &mut Log, i: u32) -> Result<(), Fail> {
    let name = format!(in alloc; "T{i}")?;
    let text = format!(in alloc; "%sig T{i} = {{ c : type. }}.")?;
    put(alloc, log, name.as_str(), text.as_str())
}

/// A text with the numbers below 1,000 in it, each between two parts.
fn counted(
    alloc: Global,
    first: &str,
    around: (&str, &str),
    last: &str,
) -> Result<String, AllocError> {
    let mut text = String::from_str(alloc, first)?;
    for i in 0..1000 {
        write!(text, "{}{i}{}", around.0, around.1)?;
    }
    text.push_str(last)?;
    Ok(text)
}

/// A term that is 500 deep.
fn is_deep_flat(alloc: Global) -> Result<bool, Fail> {
    let text = nested(
        alloc,
        "%sig A = { a : type. z : a. f : a -> a. d : a = ",
        ("f (", 499, "f z"),
        ". }.",
    )?;
    let log = library(alloc, &[("A", text.as_str())])?;
    let wanted = nested(
        alloc,
        "A 4: A.a A.z A.f A.d\n",
        ("A.f (", 499, "A.f A.z"),
        "",
    )?;
    are_flat(alloc, &log, &[("A", wanted.as_str())])
}

/// A text with a part in it so many times, another one behind that, and as many brackets that close.
fn nested(
    alloc: Global,
    first: &str,
    term: (&str, u32, &str),
    last: &str,
) -> Result<String, AllocError> {
    let mut text = String::from_str(alloc, first)?;
    push_times(&mut text, term.1, term.0)?;
    text.push_str(term.2)?;
    push_times(&mut text, term.1, ")")?;
    text.push_str(last)?;
    Ok(text)
}

fn push_times(text: &mut String, times: u32, part: &str) -> Result<(), AllocError> {
    for _ in 0..times {
        text.push_str(part)?;
    }
    Ok(())
}

#[test]
fn flat_signatures(rt: HostRuntime) -> Result<(), Fail> {
    let alloc = rt.alloc();
    assert!(rt; are_all_flat(alloc)?, "diamonds");
    assert!(rt; is_star_flat(alloc)?, "a theory that includes 1,000");
    assert!(rt; is_deep_flat(alloc)?, "a term 500 deep");
    Ok(())
}
