//! Whole runs of the program, by cases. Each file of `data/` that is named here has cases, parted by lines that begin with `==`. Behind
//! that stand the words of a run, each behind a bar, and then what it reads. What a run wrote is printed, and behind it the number of its
//! status. Lines behind `=` say what is done with a run besides:
//!
//! - `workers N ..`: there is a run with each number of workers, and runs that come to the same as the one before are told once;
//! - `read N`, `write N` and `call N`: that call of the source, of the sink or of the folder fails;
//! - `room N`: the sink takes so many bytes;
//! - `whole TEXT`: of an output that begins this one (`~` ends a line) no more is told;
//! - `last N`: of the output so many lines are told, the last ones;
//! - `held A B`: the first install of A is held until B is as far, and it is told whether that happened;
//! - `crowd A`: each worker is held until A is as far, and the front until all workers are held, or four of them, and it is told whether
//!   that happened;
//! - `disk`: the folder is one of the system, and else has the files of the case.
#![tactic(auto)]

mod crowd;
mod gates;
mod held;
mod outcome;
mod played;

use mmt_outside::{DiskFolder, StdSink, write_all};
use outcome::Outcome;
use played::told;
use std::alloc::{Alloc, Global};
use std::fs;
use std::fs::Files;
use std::process::ExitCode;
use std::sync::Wait;
use std::thread::Threads;
use test_texts::read_case;

/// The exit status where a file of cases cannot be read.
const UNREAD: u8 = 1;

/// The exit status where memory is wanting, or nothing can be printed.
const FAILED: u8 = 2;

/// The files, in order.
const FILES: &[&str] = &[
    "library.cases",
    "theories.cases",
    "links.cases",
    "texts.cases",
    "scripts.cases",
    "words.cases",
    "folders.cases",
    "order.cases",
    "structures.cases",
    "views.cases",
    "rows.cases",
    "carried.cases",
    "printed.cases",
    "short.cases",
    "large.cases",
    "hostile.cases",
    "held.cases",
];

/// Whether a case could be played, and what came of it be printed.
fn is_played<R: Threads + Wait + Sync>(
    rt: &R,
    alloc: Global,
    disk: &mut DiskFolder,
    sink: &mut StdSink,
    written: &str,
) -> bool {
    match read_case(alloc, written) {
        Ok(case) => is_printed(sink, told(rt, alloc, disk, &case)),
        Err(_) => false,
    }
}

fn is_printed(sink: &mut StdSink, outcome: Outcome) -> bool {
    match outcome.whole() {
        Some(told) => write_all(sink, told).is_ok(),
        None => false,
    }
}

/// Plays the cases of a text, and prints what came of each. The answer is an exit status.
fn play_all<R: Threads + Wait + Sync>(
    rt: &R,
    alloc: Global,
    disk: &mut DiskFolder,
    sink: &mut StdSink,
    text: &str,
) -> u8 {
    let text = text.strip_suffix('\n').unwrap_or(text);
    for written in text.split("\n==").skip(1) {
        if !is_played(rt, alloc, disk, sink, written) {
            return FAILED;
        }
    }
    0
}

/// The same with the cases of a file.
fn play_file<R: Threads + Wait + Files + Alloc + Sync>(
    rt: &R,
    alloc: Global,
    disk: &mut DiskFolder,
    sink: &mut StdSink,
    file: &str,
) -> u8 {
    match fs::read_to_string(rt, file) {
        Ok(text) => play_all(rt, alloc, disk, sink, text.as_str()),
        Err(_) => UNREAD,
    }
}

/// The same with all files.
fn play_files<R: Threads + Wait + Files + Alloc + Sync>(
    rt: &R,
    alloc: Global,
    disk: &mut DiskFolder,
    sink: &mut StdSink,
) -> u8 {
    for &file in FILES {
        let status = play_file(rt, alloc, disk, sink, file);
        if status != 0 {
            return status;
        }
    }
    0
}

fn main(rt: HostRuntime) -> ExitCode {
    let mut disk = DiskFolder::new(rt);
    let mut sink = StdSink::new(rt);
    ExitCode::from(play_files(&rt, rt.alloc(), &mut disk, &mut sink))
}
