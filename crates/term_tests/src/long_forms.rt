//! Long forms of atomic objects at simple types, and of values at classes.

use crate::rows::Row;
use crate::substitutions::{is_object, read_type, read_value};
use crate::terms::expanded;
use hereditary_subst::{eta, reduce};
use lf_terms::{Memory, Obj, Simple, Value, same_value};
use lf_translate::long_value;
use std::alloc::Global;
use test_texts::found::{class, spine, value};

/// Whether an atomic object has the wanted long form at the simple type to which a family erases.
pub(crate) fn is_long_form(alloc: Global, row: Row<'_>) -> bool {
    let simple = read_type(alloc, row.first);
    let atom = read_value(alloc, row.second);
    match (&simple, &atom) {
        (Some(simple), Some(atom)) => {
            is_object(alloc, long_form(alloc, simple, atom), row.third)
        }
        _ => false,
    }
}

/// The long form of an atomic object; a λ has none, and is left.
fn long_form(alloc: Global, simple: &Simple, object: &Obj) -> Result<Obj, Memory> {
    match object {
        Obj::At { head, spine } => eta(alloc, simple, head, spine.as_slice()),
        Obj::Lam(_) => object.copy(alloc),
    }
}

/// Whether the long form of an atomic object, applied to arguments, comes to the wanted object.
pub(crate) fn takes(alloc: Global, row: Row<'_>) -> bool {
    let simple = read_type(alloc, row.first);
    let atom = read_value(alloc, row.second);
    match (&simple, &atom) {
        (Some(simple), Some(atom)) => does_take(alloc, simple, atom, row),
        _ => false,
    }
}

fn does_take(alloc: Global, simple: &Simple, atom: &Obj, row: Row<'_>) -> bool {
    match long_form(alloc, simple, atom) {
        Ok(long) => {
            let held = is_taken(alloc, &long, simple, row);
            drop(long);
            held
        }
        Err(_) => false,
    }
}

fn is_taken(alloc: Global, long: &Obj, simple: &Simple, row: Row<'_>) -> bool {
    let Some(text) = expanded(alloc, row.third) else {
        return false;
    };
    match spine(alloc, "", text.as_str()) {
        Some(arguments) => {
            let found = reduce(alloc, long, simple, arguments.as_slice());
            is_object(alloc, found, row.fourth)
        }
        None => false,
    }
}

/// Whether a value has the wanted long form at a class.
pub(crate) fn is_long_value(alloc: Global, row: Row<'_>) -> bool {
    let at = class(alloc, row.first);
    let read = value(alloc, row.second);
    match (&at, &read) {
        (Some(at), Some(read)) => is_value(alloc, long_value(alloc, at, read), row.third),
        _ => false,
    }
}

fn is_value(alloc: Global, found: Result<Value, Memory>, text: &str) -> bool {
    let wanted = value(alloc, text);
    let holds = match (&found, &wanted) {
        (Ok(found), Some(wanted)) => same_value(found, wanted),
        _ => false,
    };
    drop(found);
    holds
}
