//! One command of a script, or its end, and what is written then.
ghost use Rattle.std.specs.Prelude.{◌≡◌, true, false, [], Some, IfSome};
ghost use Rattle.board_meaning.specs.Legal.{IsLegal};
ghost use Rattle.text_meaning.specs.Dependencies.{dependencies};
ghost use Rattle.board_seats.specs.Seats.{Keeps};
ghost use Rattle.board_front.specs.Staying.{IsAtFront, IsFront};
ghost use Rattle.script_reader.specs.Commands.{IsShort, read_command};
ghost use Rattle.mmt_top.specs.Answered.{SpokenTells};
ghost use Rattle.mmt_top.specs.Outside.{LeavesSink};
ghost use Rattle.mmt_top.specs.Session.{EndsAs, IsSessionStatus, FaultTells};

use crate::answer::answer;
use board_front::{Hall, Mmt};
use board_seats::BoardPass;
use edit_log::Log;
use mmt_outside::{Gate, Sink, write_all};
use report_text::fault_line;
use run_status::{Status, write_last};
use script_reader::{Command, ScriptFault};
use std::alloc::Global;
use std::sync::Wait;

/// Flushes at the end of the script.
pub(crate) fn finish<K: Sink>(sink: &mut K) -> Status
    ensures end { EndsAs result (K.taken sink.old) (K.taken sink.new) [] false }
    ensures status { IsSessionStatus result }
    ensures sink { LeavesSink (Some result) (K.taken sink.old) (K.taken sink.new) (K.faults sink.old) (K.faults sink.new) }
    ensures read { result ≡ Status.ReadFault → ⊥ }
{
    match sink.flush() {
        Ok(()) => Status::Done,
        Err(_) => Status::WriteFault,
    }
}

/// Plays a command and writes its lines. A status is the end of the session.
pub(crate) fn speak<R: Wait, K: Sink, G: Gate>(
    hall: &Hall<'_, R, Mmt, G>,
    pass: &mut BoardPass<Mmt>,
    log: &mut Log,
    sink: &mut K,
    command: Command,
) -> Option<Status>
    requires at_front { IsAtFront hall.now.board.now pass.old }
    requires front { IsFront log.old pass.old.seen }
    requires short { IsShort command }
    ensures keeps { Keeps pass.old pass.new }
    ensures legal { IsLegal dependencies pass.new.seen }
    ensures spoken { IfSome (read_command command) (λ spoken. SpokenTells result (K.taken sink.old) (K.taken sink.new) spoken log.old log.new pass.old.seen pass.new.seen) }
    ensures status { IfSome result IsSessionStatus }
    ensures read { IfSome result (λ status. status ≡ Status.ReadFault → ⊥) }
    ensures sink { LeavesSink result (K.taken sink.old) (K.taken sink.new) (K.faults sink.old) (K.faults sink.new) }
{
    let Ok(lines) = answer(hall, pass, log, command) else {
        return Some(Status::Memory);
    };
    match write_all(sink, lines.as_slice()) {
        Ok(()) => None,
        Err(_) => Some(Status::WriteFault),
    }
}

/// Writes the line of a fault of the script, and flushes.
fn write_fault<K: Sink>(sink: &mut K, line: &[u8]) -> Status
    ensures end { EndsAs result (K.taken sink.old) (K.taken sink.new) line.now true }
    ensures status { IsSessionStatus result }
    ensures sink { LeavesSink (Some result) (K.taken sink.old) (K.taken sink.new) (K.faults sink.old) (K.faults sink.new) }
    ensures read { result ≡ Status.ReadFault → ⊥ }
{
    match write_last(sink, line) {
        Ok(()) => Status::ScriptFault,
        Err(_) => Status::WriteFault,
    }
}

/// Ends the session after an error of the script.
#[tactic(auto, using(crate::proofs::Outside::sink_untouched, crate::proofs::Outside::sink_unread))]
pub(crate) fn end_by<K: Sink>(alloc: Global, sink: &mut K, fault: ScriptFault) -> Status
    requires { fault ≡ ScriptFault.Spent → ⊥ }
    ensures end { FaultTells fault result (K.taken sink.old) (K.taken sink.new) }
    ensures status { IsSessionStatus result }
    ensures sink { LeavesSink (Some result) (K.taken sink.old) (K.taken sink.new) (K.faults sink.old) (K.faults sink.new) }
    ensures read { result ≡ Status.ReadFault → fault ≡ ScriptFault.Failed }
{
    let line = match fault {
        ScriptFault::Bad { line } => fault_line(alloc, line, false),
        ScriptFault::Unended { line } => fault_line(alloc, line, true),
        ScriptFault::Failed => return Status::ReadFault,
        ScriptFault::Spent => unreachable!(),
        ScriptFault::Memory => return Status::Memory,
    };
    match line {
        Ok(line) => write_fault(sink, line.as_slice()),
        Err(_) => Status::Memory,
    }
}
