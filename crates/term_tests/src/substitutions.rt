//! Terms that are raised, and worked substitutions.

use crate::rows::Row;
use crate::terms::{Term, copied, expanded, is_wanted, raised, read_term, substituted};
use hereditary_subst::reduce;
use lf_terms::{Memory, Obj, Simple, same_obj};
use std::alloc::Global;
use test_texts::found::{object, simple, spine};

/// Whether a copy of a term with its variables raised by so many, from one on, is the wanted one.
pub(crate) fn raises(alloc: Global, row: Row<'_>) -> bool {
    match (row.second.parse::<u32>(), row.third.parse::<u32>()) {
        (Ok(by), Ok(from)) => is_raised(alloc, row, by, from),
        _ => false,
    }
}

fn is_raised(alloc: Global, row: Row<'_>, by: u32, from: u32) -> bool {
    match copy_of(alloc, row.first) {
        Some(copy) => is_wanted(alloc, raised(alloc, &copy, by, from), row.fourth),
        None => false,
    }
}

fn copy_of(alloc: Global, text: &str) -> Option<Box<Term>> {
    let term = read_term(alloc, text)?;
    copied(alloc, &term)
}

pub(crate) fn read_value(alloc: Global, text: &str) -> Option<Box<Obj>> {
    let text = expanded(alloc, text)?;
    object(alloc, "", text.as_str())
}

pub(crate) fn read_type(alloc: Global, text: &str) -> Option<Box<Simple>> {
    let text = expanded(alloc, text)?;
    simple(alloc, text.as_str())
}

/// Whether a value, of the simple type to which a family erases, substituted for a variable of a term gives the wanted one.
pub(crate) fn gives(alloc: Global, row: Row<'_>) -> bool {
    let value = read_value(alloc, row.first);
    let simple = read_type(alloc, row.second);
    match (&value, &simple) {
        (Some(value), Some(simple)) => is_given(alloc, value, simple, row),
        _ => false,
    }
}

fn is_given(alloc: Global, value: &Obj, simple: &Simple, row: Row<'_>) -> bool {
    let Ok(at) = row.third.parse::<u32>() else {
        return false;
    };
    match read_term(alloc, row.fourth) {
        Some(into) => {
            is_wanted(
                alloc,
                substituted(alloc, value, simple, at, &into),
                row.fifth,
            )
        }
        None => false,
    }
}

/// Whether a value of a type, applied to arguments, comes to the wanted object.
pub(crate) fn reduces(alloc: Global, row: Row<'_>) -> bool {
    let value = read_value(alloc, row.first);
    let simple = read_type(alloc, row.second);
    match (&value, &simple) {
        (Some(value), Some(simple)) => is_reduced(alloc, value, simple, row),
        _ => false,
    }
}

fn is_reduced(alloc: Global, value: &Obj, simple: &Simple, row: Row<'_>) -> bool {
    let Some(text) = expanded(alloc, row.third) else {
        return false;
    };
    match spine(alloc, "", text.as_str()) {
        Some(arguments) => {
            let found = reduce(alloc, value, simple, arguments.as_slice());
            is_object(alloc, found, row.fourth)
        }
        None => false,
    }
}

pub(crate) fn is_object(alloc: Global, found: Result<Obj, Memory>, wanted: &str) -> bool {
    let wanted = read_value(alloc, wanted);
    let holds = match (&found, &wanted) {
        (Ok(found), Some(wanted)) => same_obj(found, wanted),
        _ => false,
    };
    drop(found);
    holds
}
