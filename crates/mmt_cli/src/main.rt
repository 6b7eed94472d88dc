//! The program `mmt`: it hands its words, its standard streams and the folders of the system to `run`, and exits with the status. It
//! does so in a thread with a stack of its own, since terms are walked by calls as deep as they are nested.
#![tactic(auto)]

use mmt_outside::{DiskFolder, OpenGate, StdSink, StdSource};
use mmt_top::{Status, run};
use std::process::ExitCode;
use std::sync::Wait;
use std::thread::{Builder, Threads};
use std::{env, io};
use worker_crew::STACK;

/// The exit status where the words cannot be fetched, for another cause than want of memory.
const NO_WORDS: u8 = 9;

/// The words after the program's name.
fn words(rt: &HostRuntime) -> io::Result<Vec<String>> {
    let mut all = env::args(rt)?;
    let _ = all.next();
    Ok(all.collect(rt.alloc())?)
}

fn status_of(error: &io::Error) -> u8 {
    if error.kind() == io::ErrorKind::OutOfMemory {
        Status::Memory.number()
    } else {
        NO_WORDS
    }
}

/// Runs the program, with threads from this handle, and gives its exit status.
fn play<R: Threads + Wait + Sync>(threads: &R, rt: HostRuntime) -> u8 {
    match words(&rt) {
        Ok(words) => {
            let mut source = StdSource::new(rt);
            let mut sink = StdSink::new(rt);
            let mut folder = DiskFolder::new(rt);
            let status = run(
                threads,
                rt.alloc(),
                &words,
                &mut source,
                &mut sink,
                &mut folder,
                &OpenGate,
            );
            status.number()
        }
        Err(error) => status_of(&error),
    }
}

fn main(rt: HostRuntime) -> ExitCode {
    let started = Builder::new()
        .stack_size(STACK)
        .spawn(&rt, move || play(&rt, rt));
    match started {
        Ok(thread) => ExitCode::from(thread.join(&rt)),
        Err(_) => ExitCode::from(Status::Memory.number()),
    }
}
