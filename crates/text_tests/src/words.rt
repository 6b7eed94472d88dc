//! Words of the command line, and what they ask for.

use command_words::{Run, Task, run_of, usage_line};
use std::alloc::{AllocError, Global};
use test_texts::Told;

/// The words of a line, each behind a bar.
fn words_of(alloc: Global, line: &str) -> Result<Vec<String>, AllocError> {
    let mut words = Vec::new(alloc);
    for word in line.split('|').skip(1) {
        words.push(String::from_str(alloc, word)?)?;
    }
    Ok(words)
}

/// The task with its parameters, and the number of workers.
fn tell_run(told: &mut Told, run: &Run<'_>) {
    match run.task {
        Task::Play => told.say("play"),
        Task::CheckFolder(folder) => write!(told, "check <{folder}>"),
        Task::Generate {
            start,
            modules,
            edits,
        } => write!(told, "gen {start} {modules} {edits}"),
    }
    write!(told, ", {}", run.workers);
}

/// What words ask for, or the usage line.
fn tell_words(told: &mut Told, words: &[String]) {
    match run_of(words) {
        Some(run) => tell_run(told, &run),
        None => told.say(str::from_utf8(usage_line()).unwrap_or("no text").trim_end()),
    }
}

/// What the words of a line ask for.
pub(crate) fn asked(alloc: Global, line: &str, told: &mut Told) {
    match words_of(alloc, line) {
        Ok(words) => tell_words(told, words.as_slice()),
        Err(_) => told.say("want of memory"),
    }
}
