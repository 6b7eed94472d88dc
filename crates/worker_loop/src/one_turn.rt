//! One turn of a worker.
ghost use Rattle.std.specs.Prelude.{◌≡◌, ◌+◌, IfOk, OnErr};
ghost use Rattle.turn_meaning.specs.Passes.{IsIdleOf};
ghost use Rattle.board_meaning.specs.Turns.{Turns as IsTurn, TurnFindsNoMemory, judged_in};
ghost use Rattle.board_seats.specs.Seats.{Keeps};
ghost use Rattle.worker_loop.specs.Ends.{read_end};

use board_seats::{BoardPass, SharedBoard};
use lf_terms::{Memory, Name, Steps};
use mmt_outside::Gate;
use module_graph::Subject;
use std::alloc::Global;
use std::sync::Wait;
use std::sync::ledger::Ledger;
use turn_lock::Turns;
use verdict_board::Installed;

/// How a turn ended: a module was judged, and its verdict brought; no module was ready; or none was, and the board was closed.
#[derive(Debug, Drop)]
pub enum TurnEnd {
    Worked { name: Name, how: Installed },
    Idle,
    Closed,
}

/// One turn: a claim, the verdict of the module, the gate, and an install; or a claim that finds no module ready. The counter ticks
/// once for a module that was judged. The gate is told the pass's number.
///
/// `Closed`: the claim found nothing ready, and the board was then closed. `Idle`: it found nothing ready, and the board was then
/// not closed. Want of memory: the claim found none, or the judging or a copy of the name did, and the job is released.
pub fn turn<R: Wait, S: Subject, G: Gate, L: Ledger>(
    rt: &R,
    alloc: Global,
    board: &SharedBoard<S>,
    subject: &S,
    pass: &mut BoardPass<S>,
    gate: &G,
    steps: &mut Steps<L>,
) -> Result<TurnEnd, Memory>
    requires idle { IsIdleOf board.now pass.old }
    ensures keeps { Keeps pass.old pass.new }
    ensures ends { IfOk result (λ end. IsTurn S.subject pass.old.seen pass.old.number (read_end end) pass.new.seen) }
    ensures judged { IfOk result (λ end. steps.new ≡ steps.old + judged_in (read_end end)) }
    ensures wants { OnErr result (TurnFindsNoMemory S.subject pass.old.seen pass.old.number pass.new.seen) }
    ensures unjudged { OnErr result (steps.new ≡ steps.old) }
{
    let job = match board.claim(rt, alloc, pass)? {
        Some(job) => job,
        None => {
            return Ok(if board.closed(rt, pass) {
                TurnEnd::Closed
            } else {
                TurnEnd::Idle
            });
        }
    };
    let name = match job.name().copy(alloc) {
        Ok(name) => name,
        Err(fault) => {
            board.release(rt, pass, job);
            return Err(fault);
        }
    };
    let verdict = match subject.judge(alloc, &name, job.text(), job.answers(), steps) {
        Ok(verdict) => verdict,
        Err(fault) => {
            board.release(rt, pass, job);
            return Err(fault);
        }
    };
    gate.before_install(rt, Turns::number(pass), name.as_str());
    let how = board.install(rt, pass, job, verdict);
    Ok(TurnEnd::Worked { name, how })
}
