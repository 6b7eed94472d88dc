//! What modules show, names, inclusion closures, and what expressions stand for, asked line by line. Each file of `data/` that is named
//! here has cases, parted by lines that begin with `==`: files with the constants of theories, behind the name of each those that it
//! includes, and questions. What is answered is printed.
#![tactic(auto)]

mod answers;
mod crossing;
mod expressions;
mod library;
mod scopes;
mod verdicts;

use answers::answered;
use library::{Library, library_of};
use std::alloc::Global;
use std::test::Fail;
use test_texts::{Case, Tells, Told, tell_files};

/// The files, in order.
const FILES: &[&str] = &[
    "closures.cases",
    "names.cases",
    "expressions.cases",
    "verdicts.cases",
];

/// Tells what is answered to questions.
fn answer_all(alloc: Global, library: &mut Library, told: &mut Told, questions: &str) {
    for line in questions.lines() {
        answered(alloc, library, told, line);
    }
}

struct Questions;

impl Tells for Questions {
    fn tell(&self, alloc: Global, case: &Case<'_>, told: &mut Told) {
        write!(told, "=={}\n", case.head);
        let questions = str::from_utf8(case.input.as_slice()).unwrap_or("no text");
        match library_of(alloc, case) {
            Some(mut library) => answer_all(alloc, &mut library, told, questions),
            None => told.say("no library\n"),
        }
    }
}

fn main(rt: HostRuntime) -> Result<(), Fail> {
    tell_files(&rt, rt.alloc(), &Questions, FILES)
}
