//! The work of a worker.
ghost use Rattle.std.specs.Prelude.{◌≡◌, ◌+◌, OnOk, OnErr};
ghost use Rattle.turn_meaning.specs.Passes.{IsIdleOf};
ghost use Rattle.board_seats.specs.Seats.{Keeps};
ghost use Rattle.worker_loop.specs.Work.{IsDone, IsStopped};

use crate::one_turn::{TurnEnd, turn};
use board_seats::{BoardPass, Pace, SharedBoard};
use lf_terms::{Memory, Steps};
use mmt_outside::Gate;
use module_graph::Subject;
use std::alloc::Global;
use std::sync::Wait;
use std::sync::ledger::Ledger;

/// Turns until one finds the board closed. Before the first one it rests, and behind one that finds no module ready: until it is woken
/// since there may be one, and at most for a second before the first one, else for a tenth of a second. So it takes its turns whether
/// or not anybody asks for a verdict. Before it goes on it looks, for some seconds at most, whether what is judged is long enough to be
/// shared. It stops for want of memory alone. The counter ticks once for each module that was judged.
pub fn work<R: Wait, S: Subject, G: Gate, L: Ledger>(
    rt: &R,
    alloc: Global,
    board: &SharedBoard<S>,
    subject: &S,
    pass: &mut BoardPass<S>,
    gate: &G,
    steps: &mut Steps<L>,
) -> Result<(), Memory>
    requires idle { IsIdleOf board.now pass.old }
    ensures keeps { Keeps pass.old pass.new }
    ensures done { OnOk result (IsDone S.subject pass.old.seen pass.old.number steps.old pass.new.seen steps.new) }
    ensures stopped { OnErr result (IsStopped S.subject pass.old.seen pass.old.number steps.old pass.new.seen steps.new) }
{
    let mut pace = Pace::new();
    board.wait_for_begin(rt);
    pace.wait(rt, board);
    for _ in rt.forever() {
        let announced = board.announce();
        match turn(rt, alloc, board, subject, pass, gate, steps)? {
            TurnEnd::Worked { .. } => pace.after_turn(rt, board),
            TurnEnd::Idle => {
                announced.wait(rt);
                pace.wait(rt, board);
            }
            TurnEnd::Closed => return Ok(()),
        }
    }
    unreachable!()
}
