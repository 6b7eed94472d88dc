//! A log: its answers in the order of its tests, its limits, and its look-ups.

use edit_log::{Edit, EditFault, Edited, Log};
use lf_terms::{Arc, Bytes, Memory, Name};
use std::alloc::Global;
use test_texts::Told;

/// The first and the last version of edits that were made one after another, and are still to be told.
#[derive(Clone, Copy)]
struct Made {
    first: u32,
    last: u32,
}

/// What a new log answers to these lines:
///
/// - `put NAME SIZE BYTE` and `drop NAME`: edits; those that are made in a row are told at once;
/// - `copy NAME SIZE BYTE` and `copy NAME`: a copy of such an edit;
/// - `text NAME` and `share NAME`: the stamp and the text of a name; `entry VERSION`: how many bytes an edit puts; `name PLACE`.
pub(crate) fn log_told(alloc: Global, lines: &str, told: &mut Told) {
    let mut made = Made { first: 1, last: 0 };
    let mut log = Log::new(alloc);
    for line in lines.lines() {
        obey(alloc, &mut log, told, &mut made, line);
    }
    tell_made(told, &mut made);
}

fn obey(alloc: Global, log: &mut Log, told: &mut Told, made: &mut Made, line: &str) {
    let (word, rest) = line.split_once(' ').unwrap_or((line, ""));
    match word {
        "put" | "drop" => edit(alloc, log, told, made, rest),
        _ => {
            tell_made(told, made);
            look_up(alloc, log, told, word, rest);
        }
    }
}

/// Tells the edits that were made in a row.
fn tell_made(told: &mut Told, made: &mut Made) {
    let Made { first, last } = *made;
    made.first = last.saturating_add(1);
    if first < last {
        write!(told, "made {first} to {last}\n");
    } else if first == last {
        write!(told, "made {first}\n");
    }
}

/// The edit of `NAME SIZE BYTE`, which puts that byte so many times, or of `NAME`, which drops.
fn edit_of(alloc: Global, text: &str) -> Option<Edit> {
    match text.split_once(' ') {
        Some((name, rest)) => put(alloc, name, filled(alloc, rest)?),
        None => {
            let name = Name::new(alloc, text).ok()?;
            Some(Edit::Drop { name })
        }
    }
}

fn put(alloc: Global, name: &str, text: Arc<Bytes>) -> Option<Edit> {
    match Name::new(alloc, name) {
        Ok(name) => Some(Edit::Put { name, text }),
        Err(_) => {
            drop(text);
            None
        }
    }
}

/// The text of `SIZE BYTE`.
fn filled(alloc: Global, text: &str) -> Option<Arc<Bytes>> {
    let (size, byte) = text.split_once(' ')?;
    let byte = byte.as_bytes().get(0).copied().unwrap_or(b' ');
    let size = size.parse::<usize>().ok()?;
    let bytes = vec![in alloc; byte; size].ok()?;
    Arc::new(alloc, Bytes::from_vec(bytes)).ok()
}

/// Appends an edit, and tells the answer where it is not that the edit is made as the next one.
fn edit(alloc: Global, log: &mut Log, told: &mut Told, made: &mut Made, text: &str) {
    match edit_of(alloc, text) {
        Some(edit) => tell_answer(told, made, log.append(alloc, edit)),
        None => told.say("no edit\n"),
    }
}

fn tell_answer(told: &mut Told, made: &mut Made, answer: Result<Edited, EditFault>) {
    if let Ok(Edited::Made(version)) = answer {
        made.last = version;
        return;
    }
    tell_made(told, made);
    match answer {
        Ok(Edited::Made(version)) => write!(told, "made {version}\n"),
        Ok(Edited::Same(version)) => write!(told, "same {version}\n"),
        Ok(Edited::Absent(version)) => write!(told, "absent {version}\n"),
        Err(fault) => write!(told, "{fault:?}\n"),
    }
}

fn text_of(bytes: &[u8]) -> &str {
    str::from_utf8(bytes).unwrap_or("no text")
}

fn look_up(alloc: Global, log: &Log, told: &mut Told, word: &str, rest: &str) {
    match word {
        "copy" => tell_copy(alloc, told, rest),
        "entry" => tell_entry(log, told, rest),
        "name" => tell_name(log, told, rest),
        _ => look_up_name(alloc, log, told, word, rest),
    }
}

/// How many bytes the edit of a version puts.
fn tell_entry(log: &Log, told: &mut Told, written: &str) {
    let version = written.parse::<u32>().unwrap_or(0);
    let size = match log.entry(version) {
        Some(edit) => Some(edit.size()),
        None => None,
    };
    write!(told, "entry {written}: {size:?}\n");
}

fn tell_name(log: &Log, told: &mut Told, written: &str) {
    let place = written.parse::<usize>().unwrap_or(0);
    let name = match log.name_at(place) {
        Some(name) => name.as_str(),
        None => "none",
    };
    write!(told, "name {written}: {name}\n");
}

fn tell_copy(alloc: Global, told: &mut Told, text: &str) {
    match edit_of(alloc, text) {
        Some(edit) => tell_copied(told, edit.copy(alloc)),
        None => told.say("no edit\n"),
    }
}

fn tell_copied(told: &mut Told, copy: Result<Edit, Memory>) {
    match &copy {
        Ok(Edit::Put { name, text }) => {
            let text = text_of(text.get().as_slice());
            write!(told, "copy of {}: <{text}>\n", name.as_str());
        }
        Ok(Edit::Drop { name }) => write!(told, "copy of {}: a drop\n", name.as_str()),
        Err(_) => told.say("want of memory\n"),
    }
    drop(copy);
}

fn look_up_name(alloc: Global, log: &Log, told: &mut Told, word: &str, written: &str) {
    match Name::new(alloc, written) {
        Ok(name) => look_up_text(log, told, word, &name),
        Err(_) => told.say("no name\n"),
    }
}

fn look_up_text(log: &Log, told: &mut Told, word: &str, name: &Name) {
    match word {
        "text" => tell_text(log, told, name),
        _ => tell_shared(told, log.share_text(name)),
    }
}

fn tell_text(log: &Log, told: &mut Told, name: &Name) {
    write!(told, "{} {}:", name.as_str(), log.stamp(name));
    match log.text(name) {
        Some(text) => write!(told, " <{}>\n", text_of(text)),
        None => told.say(" none\n"),
    }
}

fn tell_shared(told: &mut Told, text: Result<Option<Arc<Bytes>>, Memory>) {
    match &text {
        Ok(Some(text)) => write!(told, "shared <{}>\n", text_of(text.get().as_slice())),
        Ok(None) => told.say("none\n"),
        Err(_) => told.say("want of memory\n"),
    }
    drop(text);
}
