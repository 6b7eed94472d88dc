//! A graph: what names reach, and which are grounded.

use lf_terms::{Memory, Name, Names};
use module_graph::{Graph, any_reaches, first_ungrounded, grounded, reach};
use std::alloc::Global;
use std::mem;
use test_texts::Told;

/// A graph, and a copy of it.
#[derive(Drop)]
struct Pair {
    graph: Graph,
    copy: Graph,
}

/// What a new graph answers to these lines:
///
/// - `set NAME: NAMES` and `remove NAME`: edits; `copy` makes a copy, and `swap` changes the graph and its copy about;
/// - `grounded`, `reach NAME`: these names; `counts NAME`: how many they are;
/// - `first NAMES`: the place of the first one that is not grounded; `any NAME: NAMES`: whether one of these reaches the first.
pub(crate) fn graph_told(alloc: Global, lines: &str, told: &mut Told) {
    let mut pair = Pair {
        graph: Graph::new(alloc),
        copy: Graph::new(alloc),
    };
    for line in lines.lines() {
        let (word, rest) = line.split_once(' ').unwrap_or((line, ""));
        pair.obey(alloc, told, word, rest);
    }
}

impl Pair {
    fn obey(&mut self, alloc: Global, told: &mut Told, word: &str, rest: &str) {
        match word {
            "copy" => self.copy_graph(alloc, told),
            "swap" => mem::swap(&mut self.graph, &mut self.copy),
            "set" => set(alloc, &mut self.graph, told, rest),
            "remove" => remove(alloc, &mut self.graph, told, rest),
            "grounded" => tell_names(told, word, grounded(alloc, &self.graph)),
            "first" => first(alloc, &self.graph, told, rest),
            _ => ask(alloc, &self.graph, told, word, rest),
        }
    }

    fn copy_graph(&mut self, alloc: Global, told: &mut Told) {
        match self.graph.copy(alloc) {
            Ok(copy) => self.copy = copy,
            Err(_) => told.say("want of memory\n"),
        }
    }
}

/// The names of a text, with blanks between them.
fn names_of(alloc: Global, text: &str) -> Option<Names> {
    let mut names = Names::new(alloc);
    if are_added(alloc, &mut names, text) {
        Some(names)
    } else {
        drop(names);
        None
    }
}

fn are_added(alloc: Global, names: &mut Names, text: &str) -> bool {
    let mut all = true;
    for word in text.split_whitespace() {
        all = all && is_added(alloc, names, word);
    }
    all
}

fn is_added(alloc: Global, names: &mut Names, word: &str) -> bool {
    match Name::new(alloc, word) {
        Ok(name) => names.add(name).is_ok(),
        Err(_) => false,
    }
}

fn set(alloc: Global, graph: &mut Graph, told: &mut Told, row: &str) {
    let (name, dependencies) = row.split_once(':').unwrap_or((row, ""));
    let is_set = match names_of(alloc, dependencies) {
        Some(dependencies) => is_row_set(alloc, graph, name, dependencies),
        None => false,
    };
    if !is_set {
        told.say("not set\n");
    }
}

fn is_row_set(alloc: Global, graph: &mut Graph, name: &str, dependencies: Names) -> bool {
    match Name::new(alloc, name) {
        Ok(name) => graph.set(alloc, name, dependencies).is_ok(),
        Err(_) => {
            drop(dependencies);
            false
        }
    }
}

fn remove(alloc: Global, graph: &mut Graph, told: &mut Told, name: &str) {
    let removed = match Name::new(alloc, name) {
        Ok(name) => graph.remove(&name),
        Err(_) => false,
    };
    told.say(if removed { "removed\n" } else { "not there\n" });
}

/// What is asked of a name.
fn ask(alloc: Global, graph: &Graph, told: &mut Told, word: &str, rest: &str) {
    let (text, names) = rest.split_once(':').unwrap_or((rest, ""));
    match Name::new(alloc, text) {
        Ok(name) => ask_of(alloc, graph, told, word, &name, names),
        Err(_) => told.say("no name\n"),
    }
}

fn ask_of(alloc: Global, graph: &Graph, told: &mut Told, word: &str, name: &Name, names: &str) {
    match word {
        "reach" => tell_names(told, name.as_str(), reach(alloc, graph, name)),
        "counts" => counts(alloc, graph, told, name),
        _ => any(alloc, graph, told, name, names),
    }
}

/// A row of names, behind what they are of.
fn tell_names(told: &mut Told, front: &str, names: Result<Names, Memory>) {
    match names {
        Ok(names) => {
            write!(told, "{front}:");
            for name in names.as_slice() {
                write!(told, " {}", name.as_str());
            }
            told.say("\n");
        }
        Err(_) => told.say("want of memory\n"),
    }
}

/// How many names there are, none where memory is wanting.
fn count(names: Result<Names, Memory>) -> usize {
    match names {
        Ok(names) => names.len(),
        Err(_) => 0,
    }
}

/// How many rows there are, how many names are grounded, and how many this one reaches.
fn counts(alloc: Global, graph: &Graph, told: &mut Told, name: &Name) {
    let known = count(grounded(alloc, graph));
    let reached = count(reach(alloc, graph, name));
    write!(
        told,
        "rows {} grounded {known} reached {reached}\n",
        graph.len()
    );
}

fn first(alloc: Global, graph: &Graph, told: &mut Told, names: &str) {
    match names_of(alloc, names) {
        Some(names) => tell_first(alloc, graph, told, &names),
        None => told.say("no names\n"),
    }
}

fn tell_first(alloc: Global, graph: &Graph, told: &mut Told, names: &Names) {
    match grounded(alloc, graph) {
        Ok(known) => {
            let place = first_ungrounded(&known, graph, names);
            write!(told, "first {place:?}\n");
        }
        Err(_) => told.say("want of memory\n"),
    }
}

fn any(alloc: Global, graph: &Graph, told: &mut Told, name: &Name, names: &str) {
    match names_of(alloc, names) {
        Some(names) => tell_any(told, any_reaches(alloc, graph, &names, name)),
        None => told.say("no names\n"),
    }
}

fn tell_any(told: &mut Told, reaches: Result<bool, Memory>) {
    match reaches {
        Ok(reaches) => write!(told, "any {reaches}\n"),
        Err(_) => told.say("want of memory\n"),
    }
}
