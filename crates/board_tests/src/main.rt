//! Logs and graphs, edited and asked line by line. Each file of `data/` that is named here has cases, parted by lines that begin with
//! `==` and their kind, and what comes of each is printed.
#![tactic(auto)]

mod graphs;
mod logs;

use graphs::graph_told;
use logs::log_told;
use std::alloc::Global;
use std::test::Fail;
use test_texts::{Case, Tells, Told, tell_files};

/// The files, in order.
const FILES: &[&str] = &["logs.cases", "graphs.cases"];

struct Lines;

impl Tells for Lines {
    fn tell(&self, alloc: Global, case: &Case<'_>, told: &mut Told) {
        write!(told, "=={}\n", case.head);
        let lines = str::from_utf8(case.input.as_slice()).unwrap_or("no text");
        match case.head {
            "log" => log_told(alloc, lines, told),
            _ => graph_told(alloc, lines, told),
        }
    }
}

fn main(rt: HostRuntime) -> Result<(), Fail> {
    tell_files(&rt, rt.alloc(), &Lines, FILES)
}
