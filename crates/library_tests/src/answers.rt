//! Questions about a library, and their answers.

use crate::expressions::{class_told, kind_told, value_told};
use crate::library::{Library, closure};
use crate::scopes::name_told;
use crate::verdicts::{find, refuse, share, show_view};
use include_closure::sees;
use lf_terms::{Name, Names, QName};
use std::alloc::Global;
use test_texts::Told;

/// Tells the answer to a question:
///
/// - `closure THEORIES`: the closure of these inclusions; `brought THEORIES`: how many theories they bring; `sees THEORY THEORIES`:
///   whether the first one is seen through the others;
/// - `name VARIABLES : PATH`: what the path stands for, in the theory that is being built and among these variables;
/// - `class M : A`, `kind M : A` and `value M : A`: what A stands for, or M as a value of the class that A stands for;
/// - `refuse NAME` and `view NAME`: verdicts that are added; `find NAME` and `share NAME`.
pub(crate) fn answered(alloc: Global, library: &mut Library, told: &mut Told, line: &str) {
    let (word, rest) = line.split_once(' ').unwrap_or(("", line));
    match word {
        "closure" => tell_closure(told, rest, closure(alloc, &library.faces, rest)),
        "brought" => tell_count(told, closure(alloc, &library.faces, rest)),
        "sees" => seen(alloc, library, told, rest),
        "name" => name_told(alloc, library, told, rest),
        "class" => class_told(alloc, library, told, rest),
        "kind" => kind_told(alloc, library, told, rest),
        "value" => value_told(alloc, library, told, rest),
        "refuse" => refuse(alloc, library, told, rest),
        "view" => show_view(alloc, library, told, rest),
        "find" => find(alloc, library, told, rest),
        "share" => share(alloc, library, told, rest),
        _ => told.say("no question\n"),
    }
}

fn tell_closure(told: &mut Told, text: &str, includes: Option<Names>) {
    match includes {
        Some(includes) => {
            write!(told, "{text}:");
            for name in includes.as_slice() {
                write!(told, " {}", name.as_str());
            }
            told.say("\n");
        }
        None => told.say("no closure\n"),
    }
}

fn tell_count(told: &mut Told, includes: Option<Names>) {
    match includes {
        Some(includes) => write!(told, "{}\n", includes.len()),
        None => told.say("no closure\n"),
    }
}

fn seen(alloc: Global, library: &Library, told: &mut Told, text: &str) {
    let (name, through) = text.split_once(' ').unwrap_or((text, ""));
    match Name::new(alloc, name) {
        Ok(name) => tell_seen(told, &name, closure(alloc, &library.faces, through)),
        Err(_) => told.say("no name\n"),
    }
}

fn tell_seen(told: &mut Told, name: &Name, includes: Option<Names>) {
    match includes {
        Some(includes) => write!(told, "{}\n", sees(&includes, name)),
        None => told.say("no closure\n"),
    }
}

/// The theory of a constant and its path, with dots between.
pub(crate) fn tell_constant(told: &mut Told, name: &QName) {
    told.say(name.theory.as_str());
    for part in name.path.as_slice() {
        told.say(".");
        told.say(part.as_str());
    }
}
