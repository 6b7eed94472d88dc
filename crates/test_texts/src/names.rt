//! Names of constants.

use crate::calls::succeeds;
use lf_terms::{Name, Path, QName};
use std::alloc::Global;

/// The constant of a text: `c` is one of theory `t`, `T.c` and `T.s.c` are of theory T.
pub fn constant(alloc: Global, text: &str) -> Option<QName> {
    let (theory, names) = text.split_once('.').unwrap_or(("t", text));
    let path = path(alloc, names)?;
    match Name::new(alloc, theory) {
        Ok(theory) => Some(QName { theory, path }),
        Err(_) => {
            drop(path);
            None
        }
    }
}

fn path(alloc: Global, text: &str) -> Option<Path> {
    match text.split_once('.') {
        None => short_path(alloc, text),
        Some((first, second)) => long_path(alloc, first, second),
    }
}

fn short_path(alloc: Global, name: &str) -> Option<Path> {
    match Name::new(alloc, name) {
        Ok(name) => Path::new(alloc, name).ok(),
        Err(_) => None,
    }
}

fn long_path(alloc: Global, first: &str, second: &str) -> Option<Path> {
    let mut path = short_path(alloc, first)?;
    if is_longer(alloc, &mut path, second) {
        Some(path)
    } else {
        drop(path);
        None
    }
}

/// Whether a name could be added to a path.
fn is_longer(alloc: Global, path: &mut Path, name: &str) -> bool {
    match Name::new(alloc, name) {
        Ok(name) => succeeds(path.push(name)),
        Err(_) => false,
    }
}
