//! A front that makes short edits and polls, and wakes nobody: workers come by themselves.
ghost use Rattle.std.specs.Prelude.{◌≡◌, []};
ghost use Rattle.turn_meaning.specs.Passes.{IsIdleOf};
ghost use Rattle.board_seats.specs.Seats.{Keeps};

use crate::counts::{Counts, NO_COUNTS, counts, names};
use crate::runs::{Seat, Shared, follow_by_two, put, shared_board, size_told, split_off};
use crate::sizes::Sizes;
use crossbeam_utils::Backoff;
use lf_terms::{Memory, Name};
use std::alloc::Global;
use std::sync::Wait;
use std::test::*;
use std::thread::{Threads, join};
use verdict_board::Board;

/// Asks until the verdict of a name is told. None of its calls wakes a worker.
fn poll<R: Wait>(rt: &R, board: &Shared, pass: &mut Seat, name: &Name) -> Result<usize, Memory>
    requires idle { IsIdleOf board.now pass.old }
    ensures { Keeps pass.old pass.new }
{
    let backoff = Backoff::new();
    for _ in rt.forever() {
        let told = board.report_before_turn(rt, pass, name)?;
        if let Some(size) = size_told(&told) {
            return Ok(size);
        }
        backoff.snooze();
    }
    unreachable!()
}

/// Puts a module with an empty text under a name, and asks until its verdict is told. The answer is whether the edit was made and the
/// verdict is the size of the text.
fn put_and_poll<R: Wait>(
    rt: &R,
    alloc: Global,
    board: &Shared,
    pass: &mut Seat,
    name: &Name,
) -> bool
    requires idle { IsIdleOf board.now pass.old }
    requires front { pass.old.number ≡ 0 }
    ensures { Keeps pass.old pass.new }
{
    let made = put(rt, alloc, board, pass, name).is_some();
    made && poll(rt, board, pass, name) == Ok(0)
}

/// The front: it puts one module after another, each once the verdict of the one before is told.
fn put_and_poll_all<R: Wait>(
    rt: &R,
    alloc: Global,
    board: &Shared,
    pass: &mut Seat,
    names: &[Name],
) -> bool
    requires idle { IsIdleOf board.now pass.old }
    requires front { pass.old.number ≡ 0 }
    ensures { Keeps pass.old pass.new }
{
    let mut all = true;
    for name in names {
        let told = put_and_poll(rt, alloc, board, pass, name);
        all = all && told;
    }
    all
}

/// The same with a pass of its own; then it closes the board.
fn lead_by_polls<R: Wait>(
    rt: &R,
    alloc: Global,
    board: &Shared,
    mut pass: Seat,
    names: &[Name],
) -> (Seat, bool)
    requires idle { IsIdleOf board.now pass }
    requires front { pass.number ≡ 0 }
    ensures { Keeps pass result.0 }
{
    let told = put_and_poll_all(rt, alloc, board, &mut pass, names);
    board.close(rt, &mut pass);
    (pass, told)
}

/// Such a front and two workers, in three threads; the front is the last, which comes first where no thread can be made. The answer is
/// the board, and whether all verdicts were told and all work was done.
fn by_polls<R: Threads + Wait + Sync>(
    rt: &R,
    alloc: Global,
    board: Shared,
    mut first: Seat,
    names: &[Name],
) -> (Board<Sizes>, bool)
    requires { IsIdleOf board first × (first.number ≡ 0) × (first.made ≡ 1) × (first.joined ≡ []) }
{
    let one = split_off(&board, &mut first);
    let two = split_off(&board, &mut first);
    let shared = &board;
    let ((one, two), (mut first, told)) = join(
        rt,
        || -> ((Seat, bool), (Seat, bool))
            requires { IsIdleOf shared.now one × IsIdleOf shared.now two }
            ensures { Keeps one result.0.0 × Keeps two result.1.0 }
        { follow_by_two(rt, alloc, shared, one, two) },
        || -> (Seat, bool)
            requires { IsIdleOf shared.now first × (first.number ≡ 0) }
            ensures { Keeps first result.0 }
        { lead_by_polls(rt, alloc, shared, first, names) },
    );
    let done = told && one.1 && two.1;
    board.join(&mut first, one.0);
    board.join(&mut first, two.0);
    (board.end(first), done)
}

/// The names of the modules that this front puts.
const NAMES: &str = "A B C D";

/// What such a front and two workers leave.
fn left_by_polls<R: Threads + Wait + Sync>(rt: &R, alloc: Global, names: &[Name]) -> Counts {
    match shared_board(alloc) {
        Ok((shared, first)) => counts(by_polls(rt, alloc, shared, first, names)),
        Err(_) => NO_COUNTS,
    }
}

/// Four edits, four claims with their installs, and the close.
#[test]
fn workers_come_though_nobody_wakes_them(rt: HostRuntime) -> Result<(), Fail> {
    let names = names(rt.alloc(), NAMES)?;
    let left = left_by_polls(&rt, rt.alloc(), names.as_slice());
    drop(names);
    assert_eq!(rt; left, (true, 13, 4, 4));
    Ok(())
}
