//! Objects in memory, with ample memory, and calls that fail. What they hold is let go before anything is asserted.

use lf_terms::{Bytes, Memory};
use mmt_outside::{
    Failed, Folder, Gate, Inputs64, MemFiles, MemFolder, MemSink, MemSource, NoFolder, OpenGate,
    OutFault, Sink, Source, StdSink, StdSource, write_all,
};
use std::alloc::Global;
use std::test::Fail;

/// A source of these bytes. The reads with these numbers fail.
fn source_of(alloc: Global, bytes: &[u8], numbers: &[u64]) -> Result<MemSource, Memory> {
    let bytes = Bytes::from_vec(bytes.to_vec(alloc)?);
    match numbers_of(alloc, numbers) {
        Ok(numbers) => Ok(MemSource::new(bytes, numbers)),
        Err(_) => {
            drop(bytes);
            Err(Memory)
        }
    }
}

fn numbers_of(alloc: Global, numbers: &[u64]) -> Result<Inputs64, Memory> {
    let mut all = Inputs64::new(alloc);
    if are_added(&mut all, numbers) {
        Ok(all)
    } else {
        drop(all);
        Err(Memory)
    }
}

fn are_added(all: &mut Inputs64, numbers: &[u64]) -> bool {
    for number in numbers {
        if all.add(*number).is_err() {
            return false;
        }
    }
    true
}

/// A source gives its bytes in order, and then none.
fn gives_in_order(alloc: Global) -> bool {
    match source_of(alloc, b"abcde", &[]) {
        Ok(mut source) => gives_five(&mut source),
        Err(_) => false,
    }
}

fn gives_five(source: &mut MemSource) -> bool {
    let mut into = [0u8; 3];
    let nothing = source.read(&mut []) == Ok(0);
    let first = source.read(&mut into) == Ok(3) && into == *b"abc";
    let second = source.read(&mut into) == Ok(2) && into.starts_with(b"de");
    nothing && first && second && source.read(&mut into) == Ok(0)
}

/// A read that is to fail takes nothing.
fn fails_and_takes_nothing(alloc: Global) -> bool {
    match source_of(alloc, b"ab", &[2, 4]) {
        Ok(mut source) => fails_twice(&mut source),
        Err(_) => false,
    }
}

fn fails_twice(source: &mut MemSource) -> bool {
    let mut into = [0u8; 1];
    let first = source.read(&mut into) == Ok(1) && source.read(&mut into) == Err(Failed);
    let second = source.read(&mut into) == Ok(1) && into == *b"b";
    first && second && source.read(&mut into) == Err(Failed) && source.read(&mut into) == Ok(0)
}

/// A sink of this room. The calls with these numbers fail.
fn sink_of(alloc: Global, room: usize, numbers: &[u64]) -> Result<MemSink, Memory> {
    MemSink::new(alloc, room, numbers_of(alloc, numbers)?)
}

/// A sink takes what has room.
fn takes_what_has_room(alloc: Global) -> bool {
    match sink_of(alloc, 4, &[]) {
        Ok(mut sink) => takes_four(&mut sink),
        Err(_) => false,
    }
}

fn takes_four(sink: &mut MemSink) -> bool {
    let whole = write_all(sink, b"abc") == Ok(()) && sink.flush() == Ok(());
    let part = sink.write(b"de") == Ok(1);
    let full = sink.write(b"e") == Err(Failed) && sink.write(b"") == Ok(0);
    whole && part && full && sink.bytes() == b"abcd".as_slice()
}

/// A full sink leaves a first part.
fn leaves_a_first_part(alloc: Global) -> bool {
    match sink_of(alloc, 2, &[]) {
        Ok(mut sink) => leaves_two(&mut sink),
        Err(_) => false,
    }
}

fn leaves_two(sink: &mut MemSink) -> bool {
    write_all(sink, b"abc") == Err(Failed) && sink.bytes() == b"ab".as_slice()
}

/// A write or a flush that is to fail leaves what was there.
fn leaves_what_was_there(alloc: Global) -> bool {
    match sink_of(alloc, 9, &[1, 3]) {
        Ok(mut sink) => leaves_three(&mut sink),
        Err(_) => false,
    }
}

fn leaves_three(sink: &mut MemSink) -> bool {
    let failed = write_all(sink, b"abc") == Err(Failed);
    let written = write_all(sink, b"abc") == Ok(());
    let flushed = sink.flush() == Err(Failed) && sink.flush() == Ok(());
    failed && written && flushed && sink.bytes() == b"abc".as_slice()
}

fn numbers_grow(alloc: Global) -> bool {
    match numbers_of(alloc, &[5, 1 << 40]) {
        Ok(numbers) => are_two(&numbers),
        Err(_) => false,
    }
}

fn are_two(numbers: &Inputs64) -> bool {
    let ends = numbers.len() == 2 && numbers.get(2) == None;
    let last = numbers.get(1) == Some(&(1 << 40));
    ends && last && numbers.as_slice() == [5, 1 << 40].as_slice()
}

/// `NoFolder` lists no files, and reading one is a fault.
fn no_folder_answers(alloc: Global) -> bool {
    let mut none = NoFolder::new();
    let empty = none.list(alloc, "lib").is_ok_and(|names| names.len() == 0);
    empty && none.read_file(alloc, "lib", "nat.elf").err() == Some(OutFault::Failed)
}

/// Of a folder in memory just the call fails that is to.
fn folders_answer(alloc: Global) -> bool {
    match numbers_of(alloc, &[2]) {
        Ok(numbers) => {
            let mut folder = MemFolder::new(MemFiles::new(alloc), numbers);
            lists_but_once(alloc, &mut folder)
        }
        Err(_) => false,
    }
}

fn lists_but_once(alloc: Global, folder: &mut MemFolder) -> bool {
    let first = folder.list(alloc, "lib").is_ok();
    let second = folder.list(alloc, "lib").is_err();
    first && second && folder.list(alloc, "lib").is_ok()
}

/// Reads all of a source in pieces and writes them, by nothing but the traits.
fn copy_through<S: Source + Send, K: Sink + Send>(
    source: &mut S,
    sink: &mut K,
) -> Result<usize, Failed> {
    let mut piece = [0u8; 4];
    let count = source.read(&mut piece)?;
    if count <= piece.len() {
        write_all(sink, &piece[..count])?;
    }
    sink.flush()?;
    Ok(count)
}

fn is_copied(alloc: Global) -> bool {
    match source_of(alloc, b"abc", &[]) {
        Ok(mut source) => is_copied_from(alloc, &mut source),
        Err(_) => false,
    }
}

fn is_copied_from(alloc: Global, source: &mut MemSource) -> bool {
    match sink_of(alloc, 9, &[]) {
        Ok(mut sink) => is_copied_through(source, &mut sink),
        Err(_) => false,
    }
}

fn is_copied_through(source: &mut MemSource, sink: &mut MemSink) -> bool {
    copy_through(source, sink) == Ok(3) && sink.bytes() == b"abc".as_slice()
}

fn pass<G: Gate + Sync, R: std::sync::Wait>(rt: &R, gate: &G) {
    gate.before_install(rt, 1, "Nat");
}

/// The first object that is not as it should be, if there is one.
fn wrong_object(alloc: Global) -> &'static str {
    if !gives_in_order(alloc) || !fails_and_takes_nothing(alloc) {
        "a source"
    } else if !takes_what_has_room(alloc)
        || !leaves_a_first_part(alloc)
        || !leaves_what_was_there(alloc)
    {
        "a sink"
    } else if !numbers_grow(alloc) {
        "numbers"
    } else if !no_folder_answers(alloc) || !folders_answer(alloc) {
        "a folder"
    } else if !is_copied(alloc) {
        "a copy"
    } else {
        ""
    }
}

#[test]
fn objects_in_memory(rt: HostRuntime) -> Result<(), Fail> {
    assert_eq!(rt; wrong_object(rt.alloc()), "");
    pass(&rt, &OpenGate);
    Ok(())
}

fn crosses_threads<T: Send>(_value: &T) {}

// A test is started without input, and its output is not looked at.
#[test]
fn the_standard_streams(rt: HostRuntime) -> Result<(), Fail> {
    let mut sink = StdSink::new(rt);
    write_all(&mut sink, b"written\n")?;
    sink.flush()?;
    let mut source = StdSource::new(rt);
    let mut piece = [0u8; 4];
    assert_eq!(rt; source.read(&mut piece[..0]), Ok(0));
    crosses_threads(&source);
    crosses_threads(&sink);
    Ok(())
}
