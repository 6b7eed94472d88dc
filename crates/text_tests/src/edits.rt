//! The edits of the generator, in order.
ghost use Rattle.std.specs.Prelude.{◌≤◌};

use edit_log::Edit;
use script_reader::Gen;
use std::alloc::Global;
use test_texts::Told;

/// The number that a library starts from, how many modules it has, and how many edits are made behind them.
#[derive(Clone, Copy)]
pub(crate) struct Start {
    start: u32,
    modules: u32,
    edits: u32,
}

impl Start {
    /// The numbers of a text, with blanks between them.
    pub(crate) fn read(text: &str) -> Start {
        let (start, rest) = text.split_once(' ').unwrap_or(("", ""));
        let (modules, edits) = rest.split_once(' ').unwrap_or(("", ""));
        Start {
            start: number(start),
            modules: number(modules),
            edits: number(edits),
        }
    }
}

fn number(text: &str) -> u32 {
    text.parse::<u32>().unwrap_or(0)
}

/// The edits, each as a line with its name, and its text.
pub(crate) fn edits_of(alloc: Global, from: Start, told: &mut Told) {
    if from.modules < 1 || from.modules > 1_000 || from.edits > 1_000 {
        told.say("no library");
    } else {
        all_edits(alloc, from.start, from.modules, from.edits, told);
    }
}

fn all_edits(alloc: Global, start: u32, modules: u32, edits: u32, told: &mut Told)
    requires some { 1 ≤ modules }
    requires few { modules ≤ 1000 }
    requires few_edits { edits ≤ 1000 }
{
    let mut generator = Gen::new(start, modules);
    for _ in 0..modules + edits {
        match generator.next_edit(alloc) {
            Ok(edit) => tell_edit(told, &edit),
            Err(_) => told.say("want of memory"),
        }
    }
}

fn tell_edit(told: &mut Told, edit: &Edit) {
    match edit {
        Edit::Put { name, text } => {
            let text = str::from_utf8(text.get().as_slice()).unwrap_or("no text");
            write!(told, "put {}\n{text}", name.as_str());
        }
        Edit::Drop { name } => write!(told, "drop {}\n", name.as_str()),
    }
}
