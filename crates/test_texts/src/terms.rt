//! Terms, classifiers and values. There is none where the text is of no such thing, or memory is wanting.

use crate::names::constant;
use crate::reader::{Reader, Term};
use lf_terms::{Class, Fam, Kind, Obj, Simple, Spine, Value, erase};
use std::alloc::Global;

/// The term of a text that stands behind another one.
fn read(alloc: Global, free: &str, before: &str, text: &str) -> Option<Term> {
    let mut reader = Reader::new(alloc);
    reader.enter_all(free);
    reader.take(before);
    reader.take(text);
    reader.finish()
}

/// The object of a text, among free variables whose names `free` has, the innermost last.
pub fn object(alloc: Global, free: &str, text: &str) -> Option<Box<Obj>> {
    read(alloc, free, "", text)?.into_object(alloc)
}

/// The family of a text, among free variables.
pub fn family(alloc: Global, free: &str, text: &str) -> Option<Box<Fam>> {
    read(alloc, free, "", text)?.into_family(alloc)
}

/// The kind of a text, among free variables.
pub fn kind(alloc: Global, free: &str, text: &str) -> Option<Box<Kind>> {
    read(alloc, free, "", text)?.into_kind()
}

/// The arguments of a text, among free variables: none of an empty text.
pub fn spine(alloc: Global, free: &str, text: &str) -> Option<Box<Spine>> {
    read(alloc, free, "h ", text)?.into_spine(alloc)
}

/// The simple type to which the family of a text erases.
pub fn simple(alloc: Global, text: &str) -> Option<Box<Simple>> {
    let family = family(alloc, "", text)?;
    match erase(alloc, &family) {
        Ok(simple) => Box::new(alloc, simple).ok(),
        Err(_) => None,
    }
}

/// The kind of a text, or its family where it is none.
pub fn class(alloc: Global, text: &str) -> Option<Box<Class>> {
    match read(alloc, "", "", text)? {
        Term::Kind(kind) => Box::new(alloc, Class::Kind(Box::into_inner(kind))).ok(),
        term => family_class(alloc, term),
    }
}

fn family_class(alloc: Global, term: Term) -> Option<Box<Class>> {
    let family = term.into_family(alloc)?;
    Box::new(alloc, Class::Fam(Box::into_inner(family))).ok()
}

/// The value of a text: `same c` is the same as a constant, `family x y . A` a family with two binders, all else an
/// object.
pub fn value(alloc: Global, text: &str) -> Option<Box<Value>> {
    match text.split_once(' ') {
        Some(("same", other)) => same_value(alloc, other),
        Some(("family", written)) => family_value(alloc, written),
        _ => term_value(alloc, text),
    }
}

fn same_value(alloc: Global, other: &str) -> Option<Box<Value>> {
    let other = constant(alloc, other)?;
    Box::new(alloc, Value::Same(other)).ok()
}

fn term_value(alloc: Global, text: &str) -> Option<Box<Value>> {
    let object = object(alloc, "", text)?;
    Box::new(alloc, Value::Term(Box::into_inner(object))).ok()
}

fn family_value(alloc: Global, written: &str) -> Option<Box<Value>> {
    let (names, body) = written.split_once(". ")?;
    let family = family(alloc, names, body)?;
    let binders = count_words(names);
    let body = Box::into_inner(family);
    Box::new(alloc, Value::Fam { binders, body }).ok()
}

fn count_words(text: &str) -> u32 {
    let mut count = 0u32;
    for _ in text.split_whitespace() {
        count = count.saturating_add(1);
    }
    count
}
