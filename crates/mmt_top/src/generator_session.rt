//! A generated library that is checked over a board of its own.
ghost use Rattle.std.specs.Prelude.{◌≡◌, ◌≤◌, ◌<◌, ◌^◌, true, [], IfOk, IfSome, IsNone, IsSome, OnOk};
ghost use Rattle.mmt_outside.specs.Faults.{Rose};
ghost use Rattle.board_meaning.specs.Events.{log_of};
ghost use Rattle.board_meaning.specs.Legal.{IsLegal};
ghost use Rattle.board_meaning.specs.Ready.{is_closed};
ghost use Rattle.text_meaning.specs.Dependencies.{dependencies};
ghost use Rattle.edit_log_meaning.specs.Append.{appended_all};
ghost use Rattle.run_meaning.specs.Generator.{generated, generator_told};
ghost use Rattle.judged_meaning.specs.Outputs.{generate_output};
ghost use Rattle.output_typing.specs.ToldTyping.{AreTyped};
ghost use Rattle.run_status.specs.Flushed.{FlushesAt};
ghost use Rattle.generator_front.specs.Generated.{IsGenerated};
ghost use Rattle.mmt_top.specs.GeneratorRuns.{BacksGenerated, EndsAs, EndsGenerated, IsGeneratorStatus, MakesEdits, generator_lines};

use crate::ended::{Ended, unbegun};
use board_front::{Hall, Mmt};
use board_seats::BoardPass;
use generator_front::{Counts, lead_generator};
use lf_terms::{Bytes, Memory};
use mmt_outside::{Gate, Sink};
use report_text::{gen_line, installs_line};
use run_status::{Status, write_last};
use std::alloc::Global;
use std::sync::Wait;
use std::thread::Threads;
use verdict_board::Board;
use worker_crew::{Front, Means, lead};

/// Plays the generator from a number, with so many modules and later edits.
#[derive(Drop)]
struct GeneratorFront {
    start: u32,
    modules: u32,
    edits: u32,
    ghost within: { (start < 2 ^ 31) × (1 ≤ modules) × (modules ≤ 1000) × (edits ≤ 1000) },
}

impl Front<Mmt, (), ()> for GeneratorFront {
    type End = Result<Counts, Memory>;

    ghost leads = { λ front counts input left output written last. IsGenerated front.start front.modules front.edits counts last };

    fn lead<R: Wait, G: Gate>(
        &self,
        hall: &Hall<'_, R, Mmt, G>,
        pass: &mut BoardPass<Mmt>,
        input: &mut (),
        output: &mut (),
    ) -> Result<Counts, Memory> {
        lead_generator(hall, pass, self.start, self.modules, self.edits)
    }
}

/// The line of the counts, and without workers that of the installs behind it.
fn lines(
    alloc: Global,
    workers: u32,
    modules: u32,
    edits: u32,
    counts: &Counts,
    installs: u64,
) -> Result<Bytes, Memory>
    ensures { IfOk result (λ lines. lines ≡ generator_lines workers modules edits counts.now installs) }
{
    let mut lines = gen_line(
        alloc,
        modules,
        edits,
        counts.version,
        counts.accepted,
        counts.refused,
        counts.declarations,
    )?;
    if workers == 0 {
        lines.extend(installs_line(alloc, installs)?.as_slice())?;
    }
    Ok(lines)
}

/// Writes the lines, and flushes.
fn print<K: Sink>(
    alloc: Global,
    workers: u32,
    modules: u32,
    edits: u32,
    counts: &Counts,
    installs: u64,
    sink: &mut K,
) -> Status
    ensures ends { EndsAs result (K.taken sink.old) (K.taken sink.new) (generator_lines workers modules edits counts.now installs) }
    ensures status { IsGeneratorStatus result }
    ensures flush { FlushesAt result (K.taken sink.new) }
    ensures write { result ≡ Status.WriteFault → Rose (K.faults sink.old) (K.faults sink.new) }
    ensures sink_later { K.faults sink.old ≤ K.faults sink.new }
{
    let Ok(lines) = lines(alloc, workers, modules, edits, counts, installs) else {
        return Status::Memory;
    };
    match write_last(sink, lines.as_slice()) {
        Ok(()) => Status::Done,
        Err(_) => Status::WriteFault,
    }
}

/// Writes what is printed of a board that the generator has left.
fn finish<K: Sink>(
    alloc: Global,
    workers: u32,
    front: &GeneratorFront,
    counted: Result<Counts, Memory>,
    board: Board<Mmt>,
    sink: &mut K,
) -> Ended
    requires { IsGenerated front.now.start front.now.modules front.now.edits counted board }
    ensures some { IsSome result.board }
    ensures ends { IfSome result.board (EndsGenerated result.status workers front.now.start front.now.modules front.now.edits (K.taken sink.old) (K.taken sink.new)) }
    ensures status { IsGeneratorStatus result.status }
    ensures flush { FlushesAt result.status (K.taken sink.new) }
    ensures write { result.status ≡ Status.WriteFault → Rose (K.faults sink.old) (K.faults sink.new) }
    ensures sink_later { K.faults sink.old ≤ K.faults sink.new }
{
    match counted {
        Ok(counts) => {
            let installs = board.installs();
            Ended {
                status: print(
                    alloc,
                    workers,
                    front.modules,
                    front.edits,
                    &counts,
                    installs,
                    sink,
                ),
                board: Some(board),
            }
        }
        Err(Memory) => Ended {
            status: Status::Memory,
            board: Some(board),
        },
    }
}

/// Plays the generator on a board that has no entries, and writes what is printed.
fn generate_on<R: Threads + Wait + Sync, K: Sink + Send, G: Gate + Sync>(
    means: &Means<'_, R, Mmt, G>,
    board: Board<Mmt>,
    workers: u32,
    front: &GeneratorFront,
    sink: &mut K,
) -> Ended
    requires empty { board ≡ [] }
    requires workers { workers ≤ 16 }
    ensures some { IsSome result.board }
    ensures ends { IfSome result.board (EndsGenerated result.status workers front.now.start front.now.modules front.now.edits (K.taken sink.old) (K.taken sink.new)) }
    ensures status { IsGeneratorStatus result.status }
    ensures flush { FlushesAt result.status (K.taken sink.new) }
    ensures write { result.status ≡ Status.WriteFault → Rose (K.faults sink.old) (K.faults sink.new) }
    ensures sink_later { K.faults sink.old ≤ K.faults sink.new }
{
    let led = lead(means, board, workers, front, &mut (), &mut ());
    match led.end {
        Some(counted) => finish(means.alloc, workers, front, counted, led.board, sink),
        None => unbegun(led.board),
    }
}

/// Plays the generator from a number, with so many modules and later edits, writes what is counted of the last library, and hands
/// back the board on which the modules were judged. So many workers, at most 16, judge modules beside it, each in a thread of its own
/// where one can be made; they have ended when it answers. Without workers the number of verdicts that were installed is written too.
pub fn generate<R: Threads + Wait + Sync, K: Sink + Send, G: Gate + Sync>(
    rt: &R,
    alloc: Global,
    workers: u32,
    start: u32,
    modules: u32,
    edits: u32,
    sink: &mut K,
    gate: &G,
) -> Ended
    requires workers { workers ≤ 16 }
    requires start { start < 2 ^ 31 }
    requires modules { (1 ≤ modules) × (modules ≤ 1000) }
    requires edits { edits ≤ 1000 }

    // At Done all of the output is written and flushed; with any other status a first part of it is written.
    ensures output { EndsAs result.status (K.taken sink.old) (K.taken sink.new) (generate_output start modules edits workers) }

    ensures status { IsGeneratorStatus result.status }

    // There is no board only where memory was wanting for it, and then nothing was written. Its history is legal, and it is closed.
    // Its edits are those of the generator, with another status than Done the first of these; at Done every module that is grounded
    // stood at each version from that of the first library on.
    ensures none { IsNone result.board → result.status ≡ Status.Memory }
    ensures untouched { IsNone result.board → sink.new ≡ sink.old }
    ensures legal { IfSome result.board (λ board. IsLegal dependencies board) }
    ensures closed { IfSome result.board (λ board. is_closed board ≡ true) }
    ensures edits { IfSome result.board (λ board. MakesEdits result.status start modules edits (log_of board)) }
    ensures backs { IfSome result.board (λ board. BacksGenerated result.status start modules edits board) }

    // What is told of modules keeps typing, in the library of the version at which it is told.
    ensures typed { AreTyped (appended_all [] (generated start modules edits)) (generator_told dependencies start modules edits) }

    // At Done all that the sink took is flushed.
    ensures flush { FlushesAt result.status (K.taken sink.new) }

    // Faults have their causes, and counts never fall.
    ensures write { result.status ≡ Status.WriteFault → Rose (K.faults sink.old) (K.faults sink.new) }
    ensures sink_later { K.faults sink.old ≤ K.faults sink.new }
{
    let front = GeneratorFront {
        start,
        modules,
        edits,
    };
    let Ok(board) = Board::new(alloc, Mmt) else {
        return Ended {
            status: Status::Memory,
            board: None,
        };
    };
    let means = Means {
        rt,
        alloc,
        subject: &Mmt,
        gate,
    };
    generate_on(&means, board, workers, &front, sink)
}
