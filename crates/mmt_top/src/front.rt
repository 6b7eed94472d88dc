//! The front of a session: it reads the script, plays it on the board, and writes what is printed.
ghost use Rattle.std.specs.Prelude.{◌≡◌, true, false, [], Some, IfSome, IsNone};
ghost use Rattle.mmt_outside.specs.Bytes.{ReadPrefix};
ghost use Rattle.run_meaning.specs.ScriptItems.{script_of};
ghost use Rattle.board_meaning.specs.Legal.{IsLegal};
ghost use Rattle.text_meaning.specs.Dependencies.{dependencies};
ghost use Rattle.board_seats.specs.Seats.{Keeps};
ghost use Rattle.board_front.specs.Staying.{IsAtFront, IsFront};
ghost use Rattle.script_reader.specs.Reading.{to_come};
ghost use Rattle.mmt_top.specs.Outside.{LeavesSink, LeavesSource};
ghost use Rattle.mmt_top.specs.Session.{IsLed, IsSessionStatus, SessionEnds, TurnTells};

use crate::speak::{end_by, finish, speak};
use board_front::{Hall, Mmt, close};
use board_seats::BoardPass;
use edit_log::Log;
use mmt_outside::{Gate, Sink, Source};
use run_status::Status;
use script_reader::{Command, Script};
use std::sync::Wait;

/// One command of the script. A status is the end of the session.
fn turn<R: Wait, S: Source, K: Sink, G: Gate>(
    hall: &Hall<'_, R, Mmt, G>,
    pass: &mut BoardPass<Mmt>,
    log: &mut Log,
    script: &mut Script,
    source: &mut S,
    sink: &mut K,
) -> Option<Status>
    requires fresh { script.old.is_spent ≡ false }
    requires at_front { IsAtFront hall.now.board.now pass.old }
    requires front { IsFront log.old pass.old.seen }
    ensures keeps { Keeps pass.old pass.new }
    ensures legal { IsLegal dependencies pass.new.seen }
    ensures tells { IfSome (to_come script.old (S.left source.old)) (λ bytes. TurnTells result (K.taken sink.old) (K.taken sink.new)
        bytes (to_come script.new (S.left source.new)) pass.old.seen pass.new.seen script.old script.new) }
    ensures left { ReadPrefix (to_come script.old (S.left source.old)) (to_come script.new (S.left source.new)) }
    ensures on { IsNone result → script.new.is_spent ≡ false }
    ensures front { IsNone result → IsFront log.new pass.new.seen }
    ensures status { IfSome result IsSessionStatus }
    ensures source { LeavesSource result (S.faults source.old) (S.faults source.new) }
    ensures sink { LeavesSink result (K.taken sink.old) (K.taken sink.new) (K.faults sink.old) (K.faults sink.new) }
{
    match script.next_command(hall.alloc, source) {
        Ok(command) => match command {
            Command::End => Some(finish(sink)),
            command => speak(hall, pass, log, sink, command),
        },
        Err(fault) => Some(end_by(hall.alloc, sink, fault)),
    }
}

/// Plays the script on the source, from its first byte to its end, on a board that has no entries.
fn play<R: Wait, S: Source, K: Sink, G: Gate>(
    hall: &Hall<'_, R, Mmt, G>,
    pass: &mut BoardPass<Mmt>,
    source: &mut S,
    sink: &mut K,
) -> Status
    requires at_front { IsAtFront hall.now.board.now pass.old }
    requires empty { pass.old.seen ≡ [] }
    ensures keeps { Keeps pass.old pass.new }
    ensures legal { IsLegal dependencies pass.new.seen }
    ensures ends { IfSome (S.left source.old) (λ bytes. SessionEnds result (K.taken sink.old) (K.taken sink.new) (script_of bytes) [] pass.new.seen) }
    ensures read_all { result ≡ Status.Done → IfSome (S.left source.old) (λ bytes. S.left source.new ≡ Some []) }
    ensures left { ReadPrefix (S.left source.old) (S.left source.new) }
    ensures status { IsSessionStatus result }
    ensures source { LeavesSource (Some result) (S.faults source.old) (S.faults source.new) }
    ensures sink { LeavesSink (Some result) (K.taken sink.old) (K.taken sink.new) (K.faults sink.old) (K.faults sink.new) }
{
    let mut script = Script::new();
    let mut log = Log::new(hall.alloc);
    for _ in hall.rt.forever() {
        if let Some(status) = turn(hall, pass, &mut log, &mut script, source, sink) {
            return status;
        }
    }
    unreachable!()
}

/// The same, and then the board is closed.
pub(crate) fn lead<R: Wait, S: Source, K: Sink, G: Gate>(
    hall: &Hall<'_, R, Mmt, G>,
    pass: &mut BoardPass<Mmt>,
    source: &mut S,
    sink: &mut K,
) -> Status
    requires at_front { IsAtFront hall.now.board.now pass.old }
    requires empty { pass.old.seen ≡ [] }
    ensures keeps { Keeps pass.old pass.new }
    ensures led { IsLed result (S.left source.old) (S.left source.new) (S.faults source.old) (S.faults source.new)
        (K.taken sink.old) (K.taken sink.new) (K.faults sink.old) (K.faults sink.new) pass.new.seen }
{
    let status = play(hall, pass, source, sink);
    close(hall, pass);
    status
}
