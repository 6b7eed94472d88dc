//! A script that is played over a board of its own.
ghost use Rattle.std.specs.Prelude.{◌≡◌, ◌≤◌, true, [], Some, IfSome, IsSome, IsNone};
ghost use Rattle.mmt_outside.specs.Bytes.{ReadPrefix};
ghost use Rattle.mmt_outside.specs.Faults.{Rose};
ghost use Rattle.run_meaning.specs.ScriptItems.{script_of};
ghost use Rattle.run_meaning.specs.ScriptOutput.{has_fault};
ghost use Rattle.run_meaning.specs.ScriptLogs.{script_log, script_told};
ghost use Rattle.judged_meaning.specs.JudgingByRules.{rules};
ghost use Rattle.output_typing.specs.ToldTyping.{AreTyped};
ghost use Rattle.judged_meaning.specs.Outputs.{play_output};
ghost use Rattle.board_meaning.specs.Events.{log_of};
ghost use Rattle.board_meaning.specs.Legal.{IsLegal};
ghost use Rattle.board_meaning.specs.Ready.{is_closed};
ghost use Rattle.text_meaning.specs.Dependencies.{dependencies};
ghost use Rattle.board_front.specs.Staying.{Stays};
ghost use Rattle.run_status.specs.Flushed.{FlushesAt};
ghost use Rattle.run_status.specs.Taking.{TookOn};
ghost use Rattle.mmt_top.specs.Session.{BacksWritten, EditsAre, EndsAs, IsLed, IsSessionStatus};

use crate::ended::{Ended, unbegun};
use crate::script_front::ScriptFront;
use board_front::Mmt;
use mmt_outside::{Gate, Sink, Source};
use run_status::Status;
use std::alloc::Global;
use std::sync::Wait;
use std::thread::Threads;
use verdict_board::Board;
use worker_crew::{Means, lead};

/// Plays the script on a board that has no entries.
fn play_on<R: Threads + Wait + Sync, S: Source + Send, K: Sink + Send, G: Gate + Sync>(
    means: &Means<'_, R, Mmt, G>,
    board: Board<Mmt>,
    workers: u32,
    source: &mut S,
    sink: &mut K,
) -> Ended
    requires empty { board ≡ [] }
    requires workers { workers ≤ 16 }
    ensures led { IfSome result.board (IsLed result.status (S.left source.old) (S.left source.new) (S.faults source.old) (S.faults source.new)
        (K.taken sink.old) (K.taken sink.new) (K.faults sink.old) (K.faults sink.new)) }
    ensures some { IsSome result.board }
{
    let led = lead(means, board, workers, &ScriptFront, source, sink);
    match led.end {
        Some(status) => Ended {
            status,
            board: Some(led.board),
        },
        None => unbegun(led.board),
    }
}

/// Plays the script on the source, from its first byte to its end, and hands back the board that it was played on. So many workers,
/// at most 16, judge modules beside it, each in a thread of its own where one can be made; they have ended when it answers.
pub fn session<R: Threads + Wait + Sync, S: Source + Send, K: Sink + Send, G: Gate + Sync>(
    rt: &R,
    alloc: Global,
    workers: u32,
    source: &mut S,
    sink: &mut K,
    gate: &G,
) -> Ended
    requires workers { workers ≤ 16 }

    // Where the source tells its bytes: at Done no line is at fault, and all of the output is written and flushed; at ScriptFault
    // a line is, and all of the output is written and flushed, the line of the fault being its last; with any other status a first
    // part of the output is written.
    ensures output { IfSome (S.left source.old) (λ bytes. EndsAs result.status (K.taken sink.old) (K.taken sink.new) (play_output bytes) (has_fault (script_of bytes))) }
    ensures status { IsSessionStatus result.status }

    // There is no board only where memory was wanting for it, and then nothing was read or written. Its history is legal, and it is
    // closed. Where the source tells its bytes, its edits are those that the script makes, and with another status than Done and
    // ScriptFault the first of these; where the sink does too, all that is told by the lines of which a byte was written stands
    // after some beginning of the history at their version.
    ensures none { IsNone result.board → result.status ≡ Status.Memory }
    ensures untouched { IsNone result.board → (source.new ≡ source.old) × (sink.new ≡ sink.old) }
    ensures legal { IfSome result.board (λ board. IsLegal dependencies board) }
    ensures closed { IfSome result.board (λ board. is_closed board ≡ true) }
    ensures edits { IfSome (S.left source.old) (λ bytes. IfSome result.board (λ board. EditsAre result.status (script_log bytes) (log_of board))) }
    ensures backs { IfSome (S.left source.old) (λ bytes. IfSome result.board (λ board. BacksWritten (K.taken sink.old) (K.taken sink.new) bytes board)) }

    // What is told of modules keeps typing, in the library of the version at which it is told.
    ensures typed { IfSome (S.left source.old) (λ bytes. AreTyped (script_log bytes) (script_told rules bytes)) }

    // Of the source's bytes a first part was read; at Done nothing is left of them.
    ensures left { ReadPrefix (S.left source.old) (S.left source.new) }
    ensures read_all { result.status ≡ Status.Done → IfSome (S.left source.old) (λ bytes. S.left source.new ≡ Some []) }

    // At Done and ScriptFault all that the sink took is flushed, whether or not the source tells its bytes.
    ensures flush { FlushesAt result.status (K.taken sink.new) }

    // With every status, and whether or not the source tells its bytes, what the sink tells that it had taken is a beginning of what
    // it tells afterwards.
    ensures took { TookOn (K.taken sink.old) (K.taken sink.new) }

    // Faults have their causes, and counts never fall.
    ensures read { result.status ≡ Status.ReadFault → Rose (S.faults source.old) (S.faults source.new) }
    ensures write { result.status ≡ Status.WriteFault → Rose (K.faults sink.old) (K.faults sink.new) }
    ensures source_later { S.faults source.old ≤ S.faults source.new }
    ensures sink_later { K.faults sink.old ≤ K.faults sink.new }
{
    let Ok(board) = Board::new(alloc, Mmt) else {
        return Ended {
            status: Status::Memory,
            board: None,
        };
    };
    let means = Means {
        rt,
        alloc,
        subject: &Mmt,
        gate,
    };
    play_on(&means, board, workers, source, sink)
}
