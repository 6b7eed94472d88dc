//! Terms, substitution, long forms, the checker, translation, and the laws over terms in memory, row by row. Each file of `data/` that is
//! named here has cases, parted by lines that begin with `==` and their kind: rows, with parts between ` ; ` and what is wanted last, and
//! the tables that they are about. It is printed how many rows hold, and each one that does not.
#![tactic(auto)]

mod judgements;
mod laws;
mod long_forms;
mod names;
mod rows;
mod signatures;
mod spines;
mod substitutions;
mod tables;
mod terms;
mod translations;

use rows::holds;
use std::alloc::Global;
use std::test::Fail;
use test_texts::{Case, Tells, Told, tell_files};

/// The files, in order.
const FILES: &[&str] = &[
    "names.cases",
    "terms.cases",
    "substitutions.cases",
    "long_forms.cases",
    "signatures.cases",
    "judgements.cases",
    "translations.cases",
    "laws.cases",
];

/// How many rows hold, each of those that do not being told.
fn count_all(alloc: Global, case: &Case<'_>, told: &mut Told, rows: &str) -> u32 {
    let mut held = 0u32;
    for row in rows.lines() {
        if holds(alloc, case, row) {
            held = held.saturating_add(1);
        } else {
            write!(told, "wrong: {row}\n");
        }
    }
    held
}

struct Counted;

impl Tells for Counted {
    fn tell(&self, alloc: Global, case: &Case<'_>, told: &mut Told) {
        write!(told, "=={}\n", case.head);
        let rows = str::from_utf8(case.input.as_slice()).unwrap_or("no text");
        let held = count_all(alloc, case, told, rows);
        write!(told, "{held} hold\n");
    }
}

fn main(rt: HostRuntime) -> Result<(), Fail> {
    tell_files(&rt, rt.alloc(), &Counted, FILES)
}
