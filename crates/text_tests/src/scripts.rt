//! Commands of scripts, and faults.

use lf_terms::{Bytes, Memory};
use mmt_outside::{Inputs64, MemSource};
use script_reader::{Command, Script, ScriptFault};
use std::alloc::Global;
use test_texts::{Case, Told};

/// What so many calls for the next command answer, each in brackets, where the read with this number fails.
pub(crate) fn commands(alloc: Global, case: &Case<'_>, told: &mut Told) {
    match source_of(alloc, case) {
        Ok(mut source) => {
            tell_all(alloc, told, &mut source, case.behind("calls"));
        }
        Err(_) => told.say("want of memory"),
    }
}

/// The text of a case, as it is read.
fn source_of(alloc: Global, case: &Case<'_>) -> Result<MemSource, Memory> {
    let fails = failing_read(alloc, case.behind("read"))?;
    let text = case.input.to_vec(alloc)?;
    Ok(MemSource::new(Bytes::from_vec(text), fails))
}

/// The list that has the read of this number, where one is given.
fn failing_read(alloc: Global, number: &str) -> Result<Inputs64, Memory> {
    let mut fails = Inputs64::new(alloc);
    if let Ok(call) = number.parse::<u64>() {
        fails.add(call)?;
    }
    Ok(fails)
}

fn tell_all(alloc: Global, told: &mut Told, source: &mut MemSource, calls: &str) {
    let mut script = Script::new();
    for _ in 0..calls.parse::<u32>().unwrap_or(0) {
        told.say("[");
        tell_next(alloc, told, &mut script, source);
        told.say("]");
    }
}

fn tell_next(alloc: Global, told: &mut Told, script: &mut Script, source: &mut MemSource) {
    match script.next_command(alloc, source) {
        Ok(command) => tell_command(told, &command),
        Err(fault) => tell_fault(told, &fault),
    }
}

fn tell_fault(told: &mut Told, fault: &ScriptFault) {
    match *fault {
        ScriptFault::Bad { line } => write!(told, "bad {line}"),
        ScriptFault::Unended { line } => write!(told, "unended {line}"),
        ScriptFault::Failed => told.say("failed"),
        ScriptFault::Spent => told.say("spent"),
        ScriptFault::Memory => told.say("memory"),
    }
}

/// The bytes of a text, told as in a text of Rust.
fn text_of(bytes: &Bytes) -> &str {
    str::from_utf8(bytes.as_slice()).unwrap_or("no text")
}

fn tell_command(told: &mut Told, command: &Command) {
    match command {
        Command::Put { name, text } => {
            write!(told, "put {} {:?}", name.as_str(), text_of(text));
        }
        Command::Drop(name) => write!(told, "drop {}", name.as_str()),
        Command::Report(name) => write!(told, "report {}", name.as_str()),
        Command::Check => told.say("check"),
        Command::Flat(name) => write!(told, "flat {}", name.as_str()),
        Command::Carry { view, text } => {
            write!(told, "carry {} {:?}", view.as_str(), text_of(text));
        }
        Command::Log => told.say("log"),
        Command::Blank => told.say("blank"),
        Command::End => told.say("end"),
    }
}
