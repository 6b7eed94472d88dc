//! A board that is led by a front, with workers beside it.
ghost use Rattle.std.specs.Prelude.{◌≡◌, ◌≤◌, ◌+◌, [], IfSome, IsNone, length};
ghost use Rattle.turn_meaning.specs.Passes.{IsIdleOf, first_pass};
ghost use Rattle.worker_crew.specs.Leading.{HasLed, WasLed};
ghost use Rattle.worker_crew.specs.Workers.{AreWorkers};

use crate::joining::beside;
use crate::{Crew, Front, dismiss, hire, work_all};
use board_seats::{BoardPass, SharedBoard};
use mmt_outside::Gate;
use module_graph::Subject;
use std::alloc::Global;
use std::sync::Wait;
use std::thread::Threads;
use turn_lock::NewFault;
use verdict_board::Board;
use worker_loop::Hall;

/// A board after its front, and how the front ended. None: memory was wanting for the lock or for the workers, and the front did
/// not begin.
#[derive(Drop)]
pub struct Led<S: Subject, E: Drop> {
    pub board: Board<S>,
    pub end: Option<E>,
}

/// The means of a front and its workers, beside the board that they will share.
#[derive(Drop)]
pub struct Means<'a, R, S: Subject, G> {
    /// The handle by which threads are made and waited for.
    pub rt: &'a R,
    /// The allocator of whatever is made on the way.
    pub alloc: Global,
    /// What the board is of: by it a worker judges modules.
    pub subject: &'a S,
    /// The gate, which is told of each module before its verdict is brought.
    pub gate: &'a G,
}

/// A board of which the front did not begin.
fn unled<S: Subject, E: Drop>(board: Board<S>) -> Led<S, E>
    ensures board { result.board ≡ board }
    ensures end { IsNone result.end }
{
    Led { board, end: None }
}

/// The front leads and the crew works, each in a thread of its own where one can be made, until both are done. Where none can be made
/// the front comes first: it ends by itself, and closes the board, for which the crew waits.
fn lead_beside<
    R: Threads + Wait + Sync,
    S: Subject,
    I: Send,
    O: Send,
    F: Front<S, I, O> + Sync,
    G: Gate + Sync,
>(
    hall: &Hall<'_, R, S, G>,
    first: &mut BoardPass<S>,
    crew: &mut Crew<S>,
    front: &F,
    input: &mut I,
    output: &mut O,
) -> F::End
    requires first { IsIdleOf hall.now.board.now first.old × (first.old.number ≡ 0) }
    requires empty { first.old.seen ≡ [] }
    requires workers { AreWorkers S.subject.dependencies hall.now.board.now crew.old }
    ensures led { HasLed S.subject.dependencies first.old (F.leads front.now result input.old input.new output.old output.new) first.new }
    ensures workers { AreWorkers S.subject.dependencies hall.now.board.now crew.new }
    ensures as_many { length crew.new ≡ length crew.old }
{
    let mut leading = || -> F::End
        requires { IsIdleOf hall.now.board.now first.now × (first.now.number ≡ 0) × (first.now.seen ≡ []) }
        ensures { HasLed S.subject.dependencies first.entry.now (F.leads front.entry.now result input.entry.now input.exit.now output.entry.now output.exit.now) first.exit.now }
    { front.lead(hall, first, input, output) };
    let mut working = ||
        requires { AreWorkers S.subject.dependencies hall.now.board.now crew.now }
        ensures { AreWorkers S.subject.dependencies hall.entry.now.board.now crew.exit.now × (length crew.exit.now ≡ length crew.entry.now) }
    { work_all(hall, crew) };
    let ((), end) = beside(hall.rt, &mut working, &mut leading);
    end
}

/// The same on a shared board, with workers that are hired for it.
fn lead_shared<
    R: Threads + Wait + Sync,
    S: Subject,
    I: Send,
    O: Send,
    F: Front<S, I, O> + Sync,
    G: Gate + Sync,
>(
    means: &Means<'_, R, S, G>,
    board: SharedBoard<S>,
    mut first: BoardPass<S>,
    workers: u32,
    front: &F,
    input: &mut I,
    output: &mut O,
) -> Led<S, F::End>
    requires first { first ≡ first_pass board [] }
    requires workers { workers ≤ 16 }
    ensures led { IfSome result.end (λ end. WasLed S.subject.dependencies (F.leads front.now end input.old input.new output.old output.new) result.board) }
    ensures none { IsNone result.end → (result.board ≡ []) × (input.new ≡ input.old) × (output.new ≡ output.old) }
{
    let Ok(mut crew) = hire(means.alloc, &board, &mut first, workers) else {
        return unled(board.end(first));
    };
    let hall = Hall {
        rt: means.rt,
        alloc: means.alloc,
        board: &board,
        subject: means.subject,
        gate: means.gate,
    };
    let end = lead_beside(&hall, &mut first, &mut crew, front, input, output);
    dismiss(&board, &mut first, crew);
    Led {
        board: board.end(first),
        end: Some(end),
    }
}

/// Shares a board that has no entries, lets the front lead it with so many workers beside it, and hands the board back once all
/// have ended. Where no thread can be made the front does all the work. Workers that find no memory end, and the front goes on.
pub fn lead<
    R: Threads + Wait + Sync,
    S: Subject,
    I: Send,
    O: Send,
    F: Front<S, I, O> + Sync,
    G: Gate + Sync,
>(
    means: &Means<'_, R, S, G>,
    board: Board<S>,
    workers: u32,
    front: &F,
    input: &mut I,
    output: &mut O,
) -> Led<S, F::End>
    requires empty { board ≡ [] }
    requires workers { workers ≤ 16 }
    ensures led { IfSome result.end (λ end. WasLed S.subject.dependencies (F.leads front.now end input.old input.new output.old output.new) result.board) }
    ensures none { IsNone result.end → (result.board ≡ []) × (input.new ≡ input.old) × (output.new ≡ output.old) }
{
    match SharedBoard::new(means.alloc, board) {
        Ok((shared, first)) => { lead_shared(means, shared, first, workers, front, input, output) }
        Err(NewFault::Memory(board)) => unled(board),
    }
}
