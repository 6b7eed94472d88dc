//! Threads that share a board, and what they leave.
ghost use Rattle.std.specs.Prelude.{◌≡◌, ◌<◌, ◌-◌, ◌^◌, IfOk, []};
ghost use Rattle.turn_meaning.specs.Passes.{IsIdleOf, Splits};
ghost use Rattle.board_meaning.specs.Legal.{IsLegal};
ghost use Rattle.board_meaning.specs.Points.{number_of};
ghost use Rattle.board_seats.specs.Seats.{Keeps};
ghost use Rattle.seat_tests.specs.Sizes.{sizes};

use crate::sizes::Sizes;
use board_seats::{BoardPass, SharedBoard};
use crossbeam_utils::Backoff;
use edit_log::{Edit, Edited};
use lf_terms::{Arc, Bytes, Memory, Name, Steps};
use mmt_outside::OpenGate;
use std::alloc::Global;
use std::marker::Brand;
use std::sync::Wait;
use std::sync::ledger::{Blank, Ledger};
use std::thread::{Threads, join};
use turn_lock::NewFault;
use verdict_board::{Board, Told};
use worker_loop::work;

pub type Shared = SharedBoard<Sizes>;

pub type Seat = BoardPass<Sizes>;

/// A board that is shared, without entries, and its pass 0.
pub fn shared_board(alloc: Global) -> Result<(Shared, Seat), Memory>
    ensures { IfOk result (λ made. IsIdleOf made.0 made.1 × (made.1.number ≡ 0) × (made.1.made ≡ 1) × (made.1.joined ≡ []) × IsLegal sizes.dependencies made.1.seen) }
{
    match SharedBoard::new(alloc, Board::new(alloc, Sizes)?) {
        Ok(made) => Ok(made),
        Err(NewFault::Memory(_)) => Err(Memory),
    }
}

/// A pass with the next number. There always is one, since so few passes are made.
pub fn split_off(board: &Shared, first: &mut Seat) -> Seat
    requires first { IsIdleOf board.now first.old × (first.old.number ≡ 0) }
    requires room { first.old.made < 2 ^ 32 - 1 }
    ensures { Splits number_of first.old first.new result }
{
    match board.split(first) {
        Ok(pass) => pass,
        Err(_) => unreachable!(),
    }
}

/// The edit that puts a module with an empty text.
pub fn empty_module(alloc: Global, name: &Name) -> Result<Edit, Memory> {
    let text = Arc::new(alloc, Bytes::new(alloc))?;
    match name.copy(alloc) {
        Ok(name) => Ok(Edit::Put { name, text }),
        Err(_) => {
            drop(text);
            Err(Memory)
        }
    }
}

/// Puts a module with an empty text under a name. The answer is the version, if the edit was made.
pub fn put<R: Wait>(
    rt: &R,
    alloc: Global,
    board: &Shared,
    pass: &mut Seat,
    name: &Name,
) -> Option<u32>
    requires idle { IsIdleOf board.now pass.old }
    requires front { pass.old.number ≡ 0 }
    ensures { Keeps pass.old pass.new }
{
    let edit = empty_module(alloc, name).ok()?;
    match board.edit(rt, alloc, pass, edit) {
        Ok(Edited::Made(version)) => Some(version),
        _ => None,
    }
}

/// Puts a module with an empty text under each of these names. The answer is whether each edit was made.
pub fn put_all<R: Wait>(
    rt: &R,
    alloc: Global,
    board: &Shared,
    pass: &mut Seat,
    names: &[Name],
) -> bool
    requires idle { IsIdleOf board.now pass.old }
    requires front { pass.old.number ≡ 0 }
    ensures { Keeps pass.old pass.new }
{
    let mut all = true;
    for name in names {
        let made = put(rt, alloc, board, pass, name).is_some();
        all = all && made;
    }
    all
}

/// Claims a module and releases it. The answer is the number of the claim, if a module was ready.
pub fn claim_and_release<R: Wait>(
    rt: &R,
    alloc: Global,
    board: &Shared,
    pass: &mut Seat,
) -> Result<Option<u64>, Memory>
    requires idle { IsIdleOf board.now pass.old }
    ensures { Keeps pass.old pass.new }
{
    let Some(job) = board.claim(rt, alloc, pass)? else {
        return Ok(None);
    };
    let claim = job.claim();
    board.release(rt, pass, job);
    Ok(Some(claim))
}

/// The size that is told, if it is a verdict.
pub fn size_told(told: &Told<usize>) -> Option<usize> {
    match told {
        Told::Verdict { answer, .. } => Some(*answer),
        _ => None,
    }
}

/// Waits until the verdict of a name is told.
pub fn wait_for<R: Wait>(
    rt: &R,
    board: &Shared,
    pass: &mut Seat,
    name: &Name,
) -> Result<usize, Memory>
    requires idle { IsIdleOf board.now pass.old }
    ensures { Keeps pass.old pass.new }
{
    let backoff = Backoff::new();
    for _ in rt.forever() {
        let told = board.report(rt, pass, name)?;
        if let Some(size) = size_told(&told) {
            return Ok(size);
        }
        backoff.snooze();
    }
    unreachable!()
}

/// Waits until the verdicts of all names are told. The answer is whether each is the size of an empty text.
pub fn wait_for_all<R: Wait>(
    rt: &R,
    board: &Shared,
    pass: &mut Seat,
    names: &[Name],
) -> Result<bool, Memory>
    requires idle { IsIdleOf board.now pass.old }
    ensures { Keeps pass.old pass.new }
{
    let mut all = true;
    for name in names {
        let size = wait_for(rt, board, pass, name)?;
        all = all && size == 0;
    }
    Ok(all)
}

/// The front: it puts the modules, waits for their verdicts, and closes the board.
pub fn lead<R: Wait>(rt: &R, alloc: Global, board: &Shared, pass: &mut Seat, names: &[Name]) -> bool
    requires idle { IsIdleOf board.now pass.old }
    requires front { pass.old.number ≡ 0 }
    ensures keeps { Keeps pass.old pass.new }
    ensures legal { IsLegal sizes.dependencies pass.new.seen }
{
    let put = put_all(rt, alloc, board, pass, names);
    let told = put && matches!(wait_for_all(rt, board, pass, names), Ok(true));
    board.close(rt, pass);
    told
}

/// The front with a pass of its own.
fn lead_alone<R: Wait>(
    rt: &R,
    alloc: Global,
    board: &Shared,
    mut pass: Seat,
    names: &[Name],
) -> (Seat, bool)
    requires idle { IsIdleOf board.now pass }
    requires front { pass.number ≡ 0 }
    ensures { Keeps pass result.0 }
{
    let told = lead(rt, alloc, board, &mut pass, names);
    (pass, told)
}

fn work_on<L: Ledger, R: Wait>(
    rt: &R,
    alloc: Global,
    board: &Shared,
    mut pass: Seat,
    blank: Blank,
) -> (Seat, bool)
    requires name { blank.name ≡ L.name }
    requires parts { blank.parts ≡ L.parts }
    requires some { 0 < blank.parts }
    requires idle { IsIdleOf board.now pass }
    ensures { Keeps pass result.0 }
{
    let mut steps = Steps::<L>::new(blank);
    let done = work(rt, alloc, board, &Sizes, &mut pass, &OpenGate, &mut steps);
    (pass, done.is_ok())
}

/// A worker, until the board is closed.
pub fn follow<R: Wait>(rt: &R, alloc: Global, board: &Shared, pass: Seat) -> (Seat, bool)
    requires idle { IsIdleOf board.now pass }
    ensures { Keeps pass result.0 }
{
    work_on::<Brand, R>(rt, alloc, board, pass, Blank::new(1))
}

/// Two workers.
pub fn follow_by_two<R: Threads + Wait + Sync>(
    rt: &R,
    alloc: Global,
    board: &Shared,
    one: Seat,
    two: Seat,
) -> ((Seat, bool), (Seat, bool))
    requires one { IsIdleOf board.now one }
    requires two { IsIdleOf board.now two }
    ensures one { Keeps one result.0.0 }
    ensures two { Keeps two result.1.0 }
{
    join(
        rt,
        || -> (Seat, bool)
            requires { IsIdleOf board.now one }
            ensures { Keeps one result.0 }
        { follow(rt, alloc, board, one) },
        || -> (Seat, bool)
            requires { IsIdleOf board.now two }
            ensures { Keeps two result.0 }
        { follow(rt, alloc, board, two) },
    )
}

/// A front and two workers, in three threads; the front is the last, which comes first where no thread can be made. The answer is the
/// board, and whether all verdicts were told and all work was done.
pub fn by_three<R: Threads + Wait + Sync>(
    rt: &R,
    alloc: Global,
    board: Shared,
    mut first: Seat,
    names: &[Name],
) -> (Board<Sizes>, bool)
    requires { IsIdleOf board first × (first.number ≡ 0) × (first.made ≡ 1) × (first.joined ≡ []) }
{
    let one = split_off(&board, &mut first);
    let two = split_off(&board, &mut first);
    let shared = &board;
    let ((one, two), (mut first, told)) = join(
        rt,
        || -> ((Seat, bool), (Seat, bool))
            requires { IsIdleOf shared.now one × IsIdleOf shared.now two }
            ensures { Keeps one result.0.0 × Keeps two result.1.0 }
        { follow_by_two(rt, alloc, shared, one, two) },
        || -> (Seat, bool)
            requires { IsIdleOf shared.now first × (first.number ≡ 0) }
            ensures { Keeps first result.0 }
        { lead_alone(rt, alloc, shared, first, names) },
    );
    let done = told && one.1 && two.1;
    board.join(&mut first, one.0);
    board.join(&mut first, two.0);
    (board.end(first), done)
}
