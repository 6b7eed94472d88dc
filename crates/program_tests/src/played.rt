//! The runs of a case.

use crate::gates::CaseGate;
use crate::outcome::Outcome;
use lf_terms::{Bytes, Memory};
use mmt_outside::{DiskFolder, Inputs64, MemFiles, MemFolder, MemSink, MemSource};
use mmt_top::{Status, run};
use std::alloc::Global;
use std::sync::Wait;
use std::thread::Threads;
use test_texts::{Case, succeeds};

/// How many bytes a sink takes, where the case does not say it.
const ROOM: usize = 1 << 20;

/// A case with the words of a run of it, and its gate.
#[derive(Clone, Copy)]
struct Run<'a> {
    alloc: Global,
    case: &'a Case<'a>,
    words: &'a [String],
    gate: &'a CaseGate<'a>,
}

/// The words of the case, and what came of its runs.
pub(crate) fn told<R: Threads + Wait + Sync>(
    rt: &R,
    alloc: Global,
    disk: &mut DiskFolder,
    case: &Case<'_>,
) -> Outcome {
    let mut all = Outcome::new(alloc);
    all.add(b"==");
    all.add(case.head.as_bytes());
    all.add(b"\n");
    let mut before = Outcome::new(alloc);
    for workers in case.behind("workers").split(' ') {
        let ended = ended(rt, alloc, disk, case, workers);
        all.add_new(&before, &ended);
        before = ended;
    }
    all
}

/// Whether the words of the case could be added, and those for this number of workers, where there is one.
fn are_added(alloc: Global, words: &mut Vec<String>, case: &Case<'_>, workers: &str) -> bool {
    let mut all = true;
    for word in case.head.split('|').skip(1) {
        all = all && is_added(alloc, words, word);
    }
    all && (workers.is_empty()
        || (is_added(alloc, words, "--workers") && is_added(alloc, words, workers)))
}

fn is_added(alloc: Global, words: &mut Vec<String>, word: &str) -> bool {
    match String::from_str(alloc, word) {
        Ok(word) => succeeds(words.push(word)),
        Err(_) => false,
    }
}

/// The list that has the call of this number and no other, where a number is given.
fn failing(alloc: Global, number: &str) -> Result<Inputs64, Memory> {
    let mut fails = Inputs64::new(alloc);
    if is_noted(&mut fails, number) {
        Ok(fails)
    } else {
        drop(fails);
        Err(Memory)
    }
}

fn is_noted(fails: &mut Inputs64, number: &str) -> bool {
    match number.parse::<u64>() {
        Ok(call) => fails.add(call).is_ok(),
        Err(_) => true,
    }
}

/// Whether the files of the case could be added, each with the name `FOLDER/NAME`, or `NAME` in the folder `lib`.
fn are_files(alloc: Global, files: &mut MemFiles, case: &Case<'_>) -> bool {
    let mut all = true;
    for &(path, ref text) in case.files.as_slice() {
        all = all && is_file(alloc, files, path, text.as_slice());
    }
    all
}

fn is_file(alloc: Global, files: &mut MemFiles, path: &str, text: &[u8]) -> bool {
    let (folder, name) = path.split_once('/').unwrap_or(("lib", path));
    match file_of(alloc, folder, name, text) {
        Ok(file) => files.add(file).is_ok(),
        Err(_) => false,
    }
}

fn file_of(
    alloc: Global,
    folder: &str,
    name: &str,
    text: &[u8],
) -> Result<(String, String, Bytes), Memory> {
    let folder = String::from_str(alloc, folder)?;
    let Ok(name) = String::from_str(alloc, name) else {
        drop(folder);
        return Err(Memory);
    };
    match text.to_vec(alloc) {
        Ok(text) => Ok((folder, name, Bytes::from_vec(text))),
        Err(_) => {
            drop(name);
            drop(folder);
            Err(Memory)
        }
    }
}

fn sink_of(alloc: Global, case: &Case<'_>) -> Result<MemSink, Memory> {
    MemSink::new(alloc, room(case), failing(alloc, case.behind("write"))?)
}

fn source_of(alloc: Global, case: &Case<'_>) -> Result<MemSource, Memory> {
    let fails = failing(alloc, case.behind("read"))?;
    match case.input.to_vec(alloc) {
        Ok(input) => Ok(MemSource::new(Bytes::from_vec(input), fails)),
        Err(_) => {
            drop(fails);
            Err(Memory)
        }
    }
}

fn folder_of(alloc: Global, case: &Case<'_>) -> Result<MemFolder, Memory> {
    let fails = failing(alloc, case.behind("call"))?;
    let mut files = MemFiles::new(alloc);
    if are_files(alloc, &mut files, case) {
        Ok(MemFolder::new(files, fails))
    } else {
        drop(files);
        drop(fails);
        Err(Memory)
    }
}

/// What a run wrote, the number of its status, and whether the gate has held whom it should.
fn ended<R: Threads + Wait + Sync>(
    rt: &R,
    alloc: Global,
    disk: &mut DiskFolder,
    case: &Case<'_>,
    workers: &str,
) -> Outcome {
    let mut ended = Outcome::new(alloc);
    let mut words = Vec::new(alloc);
    if are_added(alloc, &mut words, case, workers) {
        let gate = CaseGate::of(case, workers);
        let run = Run {
            alloc,
            case,
            words: words.as_slice(),
            gate: &gate,
        };
        play(rt, disk, run, &mut ended);
        drop(gate);
    } else {
        ended.fail();
    }
    drop(words);
    ended
}

fn play<R: Threads + Wait + Sync>(
    rt: &R,
    disk: &mut DiskFolder,
    run: Run<'_>,
    ended: &mut Outcome,
) {
    match sink_of(run.alloc, run.case) {
        Ok(mut sink) => {
            let status = status_of(rt, disk, run, &mut sink);
            add_written(ended, run.case, sink.bytes());
            add_end(ended, run.alloc, status, run.gate.has_held());
        }
        Err(_) => ended.fail(),
    }
}

/// Adds the last line.
fn add_end(ended: &mut Outcome, alloc: Global, status: Result<Status, Memory>, has_held: bool) {
    match status {
        Ok(status) => add_status(ended, alloc, status, has_held),
        Err(_) => ended.fail(),
    }
}

fn add_status(ended: &mut Outcome, alloc: Global, status: Status, has_held: bool) {
    let both = if has_held { " side by side" } else { "" };
    match format!(in alloc; "-- {}{both}\n", status.number()) {
        Ok(line) => ended.add(line.as_bytes()),
        Err(_) => ended.fail(),
    }
}

/// How many bytes the sink of a case takes.
fn room(case: &Case<'_>) -> usize {
    case.behind("room").parse::<usize>().unwrap_or(ROOM)
}

/// The last lines of an output, where their number is given, and else all.
fn last_lines<'a>(output: &'a [u8], lines: &str) -> &'a [u8] {
    let mut more = lines.parse::<u64>().unwrap_or(u64::MAX);
    for behind in 0..output.len() {
        let at = output.len() - 1 - behind;
        if output[at] != b'\n' {
            continue;
        }
        if more == 0 {
            return &output[at + 1..];
        }
        more -= 1;
    }
    output
}

/// Adds what a run wrote, or that it begins the whole output, where that is given.
fn add_written(ended: &mut Outcome, case: &Case<'_>, output: &[u8]) {
    let told = last_lines(output, case.behind("last"));
    if begins(told, case.behind("whole").as_bytes()) {
        ended.add(b"a first part\n");
    } else {
        ended.add(told);
    }
}

/// Whether the output begins a whole one that is there, in which `~` ends a line.
fn begins(output: &[u8], whole: &[u8]) -> bool {
    let same = output.iter().zip(whole).all(|(byte, other)| *byte == *other
        || (*byte == b'\n' && *other == b'~'));
    same && !whole.is_empty() && output.len() <= whole.len()
}

fn status_of<R: Threads + Wait + Sync>(
    rt: &R,
    disk: &mut DiskFolder,
    run: Run<'_>,
    sink: &mut MemSink,
) -> Result<Status, Memory> {
    match source_of(run.alloc, run.case) {
        Ok(mut source) => {
            if run.case.asks("disk") {
                Ok(on_disk(rt, disk, run, &mut source, sink))
            } else {
                in_memory(rt, run, &mut source, sink)
            }
        }
        Err(_) => Err(Memory),
    }
}

fn on_disk<R: Threads + Wait + Sync>(
    rt: &R,
    disk: &mut DiskFolder,
    given: Run<'_>,
    source: &mut MemSource,
    sink: &mut MemSink,
) -> Status {
    run(rt, given.alloc, given.words, source, sink, disk, given.gate)
}

fn in_memory<R: Threads + Wait + Sync>(
    rt: &R,
    given: Run<'_>,
    source: &mut MemSource,
    sink: &mut MemSink,
) -> Result<Status, Memory> {
    match folder_of(given.alloc, given.case) {
        Ok(mut folder) => Ok(run(
            rt,
            given.alloc,
            given.words,
            source,
            sink,
            &mut folder,
            given.gate,
        )),
        Err(_) => Err(Memory),
    }
}
