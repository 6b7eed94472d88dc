//! Translation along maps of constants.

use crate::rows::{Row, file};
use crate::terms::{Term, is_wanted, read_term, translated};
use lf_terms::{HeadMap, QName, same_class, same_value};
use lf_translate::{TranslateFault, compose, differ};
use std::alloc::Global;
use test_texts::Case;
use test_texts::found::{constant, map, signature};

/// Whether the map makes the wanted term of a term, or `no C`: whether C is its first constant without an image.
pub(crate) fn translates(alloc: Global, along: &str, row: Row<'_>) -> bool {
    let map = map(alloc, along);
    let term = read_term(alloc, row.first);
    match (&map, &term) {
        (Some(map), Some(term)) => is_translated(alloc, map, term, row.second),
        _ => false,
    }
}

fn is_translated(alloc: Global, map: &HeadMap, term: &Term, wanted: &str) -> bool {
    match (translated(alloc, map, term), wanted.strip_prefix("no ")) {
        (Ok(found), None) => is_wanted(alloc, found, wanted),
        (Err(fault), Some(lacking)) => is_lacking(alloc, fault, lacking),
        _ => false,
    }
}

/// Whether the fault is that this constant has no image.
fn is_lacking(alloc: Global, fault: TranslateFault, wanted: &str) -> bool {
    let holds = match &fault {
        TranslateFault::Unmapped(name) => is_constant(alloc, name, wanted),
        _ => false,
    };
    drop(fault);
    holds
}

fn is_constant(alloc: Global, name: &QName, wanted: &str) -> bool {
    match constant(alloc, wanted) {
        Some(wanted) => *name == wanted,
        None => false,
    }
}

/// The first two maps in a row, where each constant has an image.
fn composed(alloc: Global, first: &str, second: &str) -> Option<Box<HeadMap>> {
    let first = map(alloc, first);
    let second = map(alloc, second);
    match (&first, &second) {
        (Some(first), Some(second)) => composition(alloc, first, second),
        _ => None,
    }
}

fn composition(alloc: Global, first: &HeadMap, second: &HeadMap) -> Option<Box<HeadMap>> {
    Box::new(alloc, compose(alloc, first, second).ok()?).ok()
}

/// Whether three maps in a row give the same image to a constant as a fourth one, and are as many.
pub(crate) fn agrees(alloc: Global, case: &Case<'_>, name: &str) -> bool {
    let both = composed(alloc, file(case, "first"), file(case, "second"));
    let third = map(alloc, file(case, "third"));
    match (&both, &third) {
        (Some(both), Some(third)) => {
            is_agreed(
                alloc,
                composition(alloc, both, third),
                file(case, "composed"),
                name,
            )
        }
        _ => false,
    }
}

fn is_agreed(alloc: Global, found: Option<Box<HeadMap>>, wanted: &str, name: &str) -> bool {
    let wanted = map(alloc, wanted);
    match (&found, &wanted) {
        (Some(found), Some(wanted)) => {
            is_image_same(alloc, found, wanted, name) && found.len() == wanted.len()
        }
        _ => false,
    }
}

fn is_image_same(alloc: Global, first: &HeadMap, second: &HeadMap, name: &str) -> bool {
    match constant(alloc, name) {
        Some(name) => agree(first, second, &name),
        None => false,
    }
}

/// The image of a constant is the same in both maps.
fn agree(first: &HeadMap, second: &HeadMap, name: &QName) -> bool {
    match (first.get(name), second.get(name)) {
        (Some(a), Some(b)) => same_class(&a.class, &b.class) && same_value(&a.value, &b.value),
        _ => false,
    }
}

/// Whether in two maps in a row this is the first constant that the second has no image of.
pub(crate) fn lacks(alloc: Global, first: &str, second: &str, wanted: &str) -> bool {
    let first = map(alloc, first);
    let second = map(alloc, second);
    match (&first, &second) {
        (Some(first), Some(second)) => { is_unmapped(alloc, compose(alloc, first, second), wanted) }
        _ => false,
    }
}

fn is_unmapped(alloc: Global, answer: Result<HeadMap, TranslateFault>, wanted: &str) -> bool {
    match answer {
        Ok(_map) => false,
        Err(fault) => is_lacking(alloc, fault, wanted),
    }
}

/// Whether two maps differ first on the declaration with this index, or on none.
pub(crate) fn differs(alloc: Global, case: &Case<'_>, row: Row<'_>) -> bool {
    let first = map(alloc, file(case, row.first));
    let second = map(alloc, file(case, row.second));
    match (&first, &second) {
        (Some(first), Some(second)) => {
            is_difference(alloc, first, second, file(case, "signature"), row.third)
        }
        _ => false,
    }
}

fn is_difference(
    alloc: Global,
    first: &HeadMap,
    second: &HeadMap,
    names: &str,
    wanted: &str,
) -> bool {
    match signature(alloc, names) {
        Some(names) => differ(first, second, &names) == wanted.parse::<usize>().ok(),
        None => false,
    }
}
