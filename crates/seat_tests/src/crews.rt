//! A front and a crew that share a board.
ghost use Rattle.std.specs.Prelude.{◌≡◌, ◌≤◌, length, []};
ghost use Rattle.turn_meaning.specs.Passes.{IsIdleOf};
ghost use Rattle.board_meaning.specs.Legal.{IsLegal};
ghost use Rattle.board_seats.specs.Seats.{Keeps};
ghost use Rattle.seat_tests.specs.Sizes.{sizes};
ghost use Rattle.worker_crew.specs.Workers.{AreWorkers};

use crate::runs::{Seat, Shared, lead};
use crate::sizes::Sizes;
use lf_terms::{Memory, Name};
use mmt_outside::OpenGate;
use std::alloc::Global;
use std::sync::Wait;
use std::thread::{Threads, join_mut};
use verdict_board::Board;
use worker_crew::{Crew, dismiss, hire, work_all};
use worker_loop::Hall;

/// The front leads and the crew works, each in a thread of its own. The answer is whether all verdicts were told.
fn beside<R: Threads + Wait + Sync>(
    hall: &Hall<'_, R, Sizes, OpenGate>,
    first: &mut Seat,
    crew: &mut Crew<Sizes>,
    names: &[Name],
) -> bool
    requires first { IsIdleOf hall.now.board.now first.old × (first.old.number ≡ 0) }
    requires workers { AreWorkers sizes.dependencies hall.now.board.now crew.old }
    ensures first { Keeps first.old first.new × IsLegal sizes.dependencies first.new.seen }
    ensures workers { AreWorkers sizes.dependencies hall.now.board.now crew.new × (length crew.new ≡ length crew.old) }
{
    let ((), told) = join_mut(
        hall.rt,
        &mut ||
            requires { AreWorkers sizes.dependencies hall.now.board.now crew.now }
            ensures { AreWorkers sizes.dependencies hall.entry.now.board.now crew.exit.now × (length crew.exit.now ≡ length crew.entry.now) }
        { work_all(hall, crew) },
        &mut || -> bool
            requires { IsIdleOf hall.now.board.now first.now × (first.now.number ≡ 0) }
            ensures { Keeps first.entry.now first.exit.now × IsLegal sizes.dependencies first.exit.now.seen }
        { lead(hall.rt, hall.alloc, hall.board, first, names) },
    );
    told
}

/// A front and so many workers, in threads of their own. Where no thread can be made the last of the two comes first, so the front is
/// that one. The answer is the board, and whether all verdicts were told and all work was done.
pub fn by_crew<R: Threads + Wait + Sync>(
    rt: &R,
    alloc: Global,
    board: Shared,
    mut first: Seat,
    names: &[Name],
    workers: u32,
) -> Result<(Board<Sizes>, bool), Memory>
    requires first { IsIdleOf board first × (first.number ≡ 0) × (first.made ≡ 1) × (first.joined ≡ []) }
    requires legal { IsLegal sizes.dependencies first.seen }
    requires workers { workers ≤ 16 }
{
    let Ok(mut crew) = hire(alloc, &board, &mut first, workers) else {
        drop(first);
        drop(board);
        return Err(Memory);
    };
    let hall = Hall {
        rt,
        alloc,
        board: &board,
        subject: &Sizes,
        gate: &OpenGate,
    };
    let told = beside(&hall, &mut first, &mut crew, names);
    let done = crew.workers().iter().all(|worker| worker.outcome().is_ok());
    dismiss(&board, &mut first, crew);
    Ok((board.end(first), told && done))
}
