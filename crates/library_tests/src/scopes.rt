//! Names in a scope.

use crate::answers::tell_constant;
use crate::library::Library;
use lf_terms::{Fam, Name, QName};
use mmt_syntax::Binder;
use names::{Found, ResolveFault, Vars, resolve};
use std::alloc::Global;
use test_texts::found::{constant, family};
use test_texts::{Told, succeeds};

/// The most variables among which a name is looked up.
const MOST: usize = 10_000;

/// Whether the variables of a text could be added, the innermost last; `_` has no name. All are of one family.
fn are_added(alloc: Global, vars: &mut Vars, text: &str) -> bool {
    let mut all = true;
    for word in text.split_whitespace() {
        all = all && is_added(alloc, vars, word);
    }
    all
}

fn is_added(alloc: Global, vars: &mut Vars, word: &str) -> bool {
    match variable(alloc, word) {
        Some(variable) => succeeds(vars.add(Box::into_inner(variable))),
        None => false,
    }
}

fn variable(alloc: Global, word: &str) -> Option<Box<(Binder, Fam)>> {
    let family = family(alloc, "", "A.a")?;
    match binder(alloc, word) {
        Some(binder) => Box::new(alloc, (binder, Box::into_inner(family))).ok(),
        None => {
            drop(family);
            None
        }
    }
}

fn binder(alloc: Global, word: &str) -> Option<Binder> {
    match word {
        "_" => Some(Binder::Blank),
        _ => Some(Binder::Named(Name::new(alloc, word).ok()?)),
    }
}

/// What the path of `VARIABLES : PATH` stands for among these variables.
pub(crate) fn name_told(alloc: Global, library: &Library, told: &mut Told, text: &str) {
    let (around, written) = text.split_once(": ").unwrap_or(("", text));
    write!(told, "{written}: ");
    match path_of(alloc, written) {
        Some(constant) => tell_among(alloc, library, told, around, &constant),
        None => told.say("no path\n"),
    }
}

/// A path, as that of a constant of the theory `t`.
fn path_of(alloc: Global, written: &str) -> Option<QName> {
    let whole = format!(in alloc; "t.{written}").ok()?;
    constant(alloc, whole.as_str())
}

fn tell_among(alloc: Global, library: &Library, told: &mut Told, around: &str, path: &QName) {
    let mut vars = Vars::new(alloc);
    if are_added(alloc, &mut vars, around) && vars.len() <= MOST {
        tell_found(told, resolve(&library.scope(), &vars, &path.path));
    } else {
        told.say("no variables\n");
    }
}

fn tell_found(told: &mut Told, found: Result<Found<'_>, ResolveFault>) {
    match found {
        Ok(Found::Var(index)) => write!(told, "#{index}\n"),
        Ok(Found::Decl(decl)) => {
            tell_constant(told, &decl.name);
            told.say("\n");
        }
        Err(ResolveFault::Unknown) => told.say("unknown\n"),
        Err(ResolveFault::Ambiguous) => told.say("ambiguous\n"),
    }
}
