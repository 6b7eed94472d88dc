//! What texts are cut into, what they are read as, and how that is printed; what scripts and words ask for, and the edits of the
//! generator. Each file of `data/` that is named here has cases, parted by lines that begin with `==` and their kind, and what comes
//! of each is printed, or that it is as it is written.
#![tactic(auto)]

mod cutting;
mod edits;
mod scripts;
mod shown;
mod words;

use cutting::{cut, cut_alone};
use edits::{Start, edits_of};
use scripts::commands;
use shown::{answered, dependencies, divided, judged, placed_at};
use std::alloc::Global;
use std::test::Fail;
use test_texts::{Case, Tells, Told, tell_files};
use words::asked;

/// The files, in order.
const FILES: &[&str] = &[
    "tokens.cases",
    "modules.cases",
    "classes.cases",
    "faults.cases",
    "files.cases",
    "places.cases",
    "scripts.cases",
    "words.cases",
];

/// Tells what comes of a case.
fn answer(alloc: Global, case: &Case<'_>, told: &mut Told) {
    let text = case.input.as_slice();
    match case.head {
        "tokens" => cut(alloc, text, told),
        "tokens alone" => cut_alone(alloc, text, told),
        "module" => answered(alloc, text, told),
        "judgement" => judged(alloc, text, told),
        "dependencies" => dependencies(alloc, text, told),
        "file" => divided(alloc, text, told),
        "place" => placed_at(text, case.behind("at"), told),
        "script" => commands(alloc, case, told),
        "edits" => edits_of(alloc, Start::read(case.behind("from")), told),
        words => asked(alloc, words, told),
    }
}

struct Texts;

impl Tells for Texts {
    fn tell(&self, alloc: Global, case: &Case<'_>, told: &mut Told) {
        let mut answered = Told::new(alloc);
        answer(alloc, case, &mut answered);
        write!(told, "=={}\n", case.head);
        if answered.as_str().as_bytes() == case.input.as_slice() {
            told.say("as it is written");
        } else {
            told.add(&answered);
        }
        told.say("\n");
    }
}

fn main(rt: HostRuntime) -> Result<(), Fail> {
    tell_files(&rt, rt.alloc(), &Texts, FILES)
}
