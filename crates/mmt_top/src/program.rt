//! The whole program as one call.
ghost use Rattle.std.specs.Prelude.{◌≡◌, ◌≤◌, true, false, [], Some, None, map, IfSome, IsSome};
ghost use Rattle.std.specs.String.{string_bytes};
ghost use Rattle.mmt_outside.specs.Bytes.{ReadPrefix};
ghost use Rattle.mmt_outside.specs.Faults.{Rose};
ghost use Rattle.command_words_meaning.specs.WordLists as meant;
ghost use Rattle.run_status.specs.Flushed.{FlushesAt};
ghost use Rattle.run_status.specs.Taking.{TookOn};
ghost use Rattle.command_words.specs.ReadRuns.{IsWithin, read_run, read_task};
ghost use Rattle.mmt_top.specs.Runs.{Does, IsStatusOf, IsUsage, Prints, ReadHasCause, checks, is_check, is_play, plays};
ghost use Rattle.mmt_top.specs.Typing.{TellsTyped};

use crate::ended::Ended;
use crate::folder_session::check_folder;
use crate::generator_session::generate;
use crate::script_session::session;
use command_words::{Run, Task, run_of, usage_line};
use mmt_outside::{Folder, Gate, Sink, Source};
use run_status::{Status, write_last};
use std::alloc::Global;
use std::mem::forget;
use std::sync::Wait;
use std::thread::Threads;

/// Writes the usage line, and flushes. It takes no memory.
fn usage<K: Sink>(sink: &mut K) -> Status
    ensures usage { IsUsage result (K.taken sink.old) (K.taken sink.new) }
    ensures flush { FlushesAt result (K.taken sink.new) }
    ensures later { K.faults sink.old ≤ K.faults sink.new }
    ensures write { result ≡ Status.WriteFault → Rose (K.faults sink.old) (K.faults sink.new) }
{
    match write_last(sink, usage_line()) {
        Ok(()) => Status::Usage,
        Err(_) => Status::WriteFault,
    }
}

/// How a command ended. The memory of its board is not given back piece by piece, which takes as long as a tenth of the run did: the
/// process ends behind its command, and the system takes back all of it at once.
fn left_to_the_system(ended: Ended) -> Status
    ensures { result ≡ ended.status }
{
    let Ended { status, board } = ended;
    forget(board);
    status
}

/// Does what the words asked for.
fn perform<
    R: Threads + Wait + Sync,
    S: Source + Send,
    K: Sink + Send,
    F: Folder + Send,
    G: Gate + Sync,
>(
    rt: &R,
    alloc: Global,
    asked: Run<'_>,
    source: &mut S,
    sink: &mut K,
    folder: &mut F,
    gate: &G,
) -> Status
    requires { IsWithin asked }
    ensures does { Does (read_run asked.entry) result (S.left source.old) (S.left source.new) (S.faults source.old) (S.faults source.new)
        (F.files folder.old) (F.files folder.new) (F.faults folder.old) (F.faults folder.new) (K.taken sink.old) (K.taken sink.new) (K.faults sink.old) (K.faults sink.new) }
    ensures unread { plays (read_task asked.entry.task) ≡ false → source.new ≡ source.old }
    ensures uncalled { checks (read_task asked.entry.task) ≡ false → folder.new ≡ folder.old }
{
    let workers = asked.workers;
    match asked.task {
        Task::Play => left_to_the_system(session(rt, alloc, workers, source, sink, gate)),
        Task::CheckFolder(path) => left_to_the_system(check_folder(
            rt, alloc, workers, path, sink, folder, gate,
        )),
        Task::Generate {
            start,
            modules,
            edits,
        } => left_to_the_system(generate(rt, alloc, workers, start, modules, edits, sink, gate)),
    }
}

/// Runs the program: reads the words, which are those after the program's name, and does what they ask. A script is played as by
/// `session`, a folder is checked as by `check_folder`, and a library is generated as by `generate`. It is the last call of a process:
/// the memory of its board is left to the system, so each further call would leave as much again. Whoever plays, checks or generates
/// more than once in a process takes those three, which hand the board back.
pub fn run<
    R: Threads + Wait + Sync,
    S: Source + Send,
    K: Sink + Send,
    F: Folder + Send,
    G: Gate + Sync,
>(
    rt: &R,
    alloc: Global,
    words: &[String],
    source: &mut S,
    sink: &mut K,
    folder: &mut F,
    gate: &G,
) -> Status
    // Where the words are in no accepted list, the usage line is written and flushed, and the answer is Usage; or the sink
    // fails, and a first part of the line is written.
    ensures usage { meant.run_of (map string_bytes words.now) ≡ None → IsUsage result (K.taken sink.old) (K.taken sink.new) }

    // Over accepted words, whatever their number of workers, what is written is the output of the script, of the folder or of the
    // generator: all of it, flushed, or with the status of a fault or of want of memory a first part of it.
    ensures status { IfSome (meant.run_of (map string_bytes words.now)) (λ run. IsStatusOf run.task result) }
    ensures output { IfSome (meant.run_of (map string_bytes words.now)) (λ run. Prints run.task run.workers result (S.left source.old) (F.files folder.old) (K.taken sink.old) (K.taken sink.new)) }

    // What is told of modules keeps typing, in the library of the version at which it is told: an accepted theory flattens to a
    // well-typed signature, and each of its structures carries typing judgements to it; an accepted view carries each typing
    // judgement of its domain to one of its codomain.
    ensures typed { IfSome (meant.run_of (map string_bytes words.now)) (λ run. TellsTyped run.task (S.left source.old) (F.files folder.old)) }

    // Of the source's bytes a first part was read. A script that is played to its end is read to its end. Where no script is played nothing is read, and where no folder is checked
    // the folder is not called.
    ensures left { ReadPrefix (S.left source.old) (S.left source.new) }
    ensures read_all { is_play (meant.run_of (map string_bytes words.now)) ≡ true → result ≡ Status.Done → IfSome (S.left source.old) (λ bytes. S.left source.new ≡ Some []) }
    ensures unread { is_play (meant.run_of (map string_bytes words.now)) ≡ false → source.new ≡ source.old }
    ensures uncalled { is_check (meant.run_of (map string_bytes words.now)) ≡ false → folder.new ≡ folder.old }
    ensures same { F.files folder.new ≡ F.files folder.old }

    // At Done, Refused, ScriptFault and Usage all that the sink took is flushed, whether or not the source and the folder tell what
    // they hold.
    ensures flush { FlushesAt result (K.taken sink.new) }

    // With every status, and whether or not they do, what the sink tells that it had taken is a beginning of what it tells afterwards.
    ensures took { TookOn (K.taken sink.old) (K.taken sink.new) }

    // Faults have their causes, and counts never fall.
    ensures read { result ≡ Status.ReadFault → ReadHasCause (meant.run_of (map string_bytes words.now)) (S.faults source.old) (S.faults source.new) (F.faults folder.old) (F.faults folder.new) }
    ensures write { result ≡ Status.WriteFault → Rose (K.faults sink.old) (K.faults sink.new) }
    ensures memory { result ≡ Status.Memory → IsSome (meant.run_of (map string_bytes words.now)) }
    ensures source_later { S.faults source.old ≤ S.faults source.new }
    ensures folder_later { F.faults folder.old ≤ F.faults folder.new }
    ensures sink_later { K.faults sink.old ≤ K.faults sink.new }
{
    match run_of(words) {
        Some(asked) => perform(rt, alloc, asked, source, sink, folder, gate),
        None => usage(sink),
    }
}
