ghost use Rattle.std.specs.Prelude.{◌≡◌, ◌≤◌};
ghost use Rattle.turn_meaning.specs.Passes.{IsIdleOf};
ghost use Rattle.board_seats.specs.Seats.{Keeps};

use crate::answers::are_at_their_places;
use crate::counts::{Counts, NO_COUNTS, counts, names};
use crate::crews::by_crew;
use crate::runs::{Seat, Shared, by_three, claim_and_release, put, shared_board};
use crate::sizes::is_a_subject;
use lf_terms::{Memory, Name};
use module_graph::Answers;
use std::alloc::Global;
use std::sync::Wait;
use std::test::*;
use std::thread::Threads;
use verdict_board::Told;

#[test]
fn the_subject_and_its_answers(rt: HostRuntime) -> Result<(), Fail> {
    assert!(rt; is_a_subject(rt.alloc()));
    assert!(rt; are_at_their_places(rt.alloc()));
    Ok(())
}

/// The names of the modules that the front puts.
const NAMES: &str = "A B C D E F G H";

/// What a front and two workers leave.
fn by_two<R: Threads + Wait + Sync>(rt: &R, alloc: Global, names: &[Name]) -> Counts {
    match shared_board(alloc) {
        Ok((shared, first)) => counts(by_three(rt, alloc, shared, first, names)),
        Err(_) => NO_COUNTS,
    }
}

/// What a front and a crew of so many leave.
fn by_so_many<R: Threads + Wait + Sync>(
    rt: &R,
    alloc: Global,
    names: &[Name],
    workers: u32,
) -> Counts
    requires { workers ≤ 16 }
{
    match shared_board(alloc) {
        Ok((shared, first)) => match by_crew(rt, alloc, shared, first, names, workers) {
            Ok(left) => counts(left),
            Err(_) => NO_COUNTS,
        },
        Err(_) => NO_COUNTS,
    }
}

/// Eight edits, eight claims with their installs, and the close.
#[test]
fn workers_judge_what_the_front_puts(rt: HostRuntime) -> Result<(), Fail> {
    let names = names(rt.alloc(), NAMES)?;
    let by_two = by_two(&rt, rt.alloc(), names.as_slice());
    let by_one = by_so_many(&rt, rt.alloc(), names.as_slice(), 1);
    let by_three = by_so_many(&rt, rt.alloc(), names.as_slice(), 3);
    let by_sixteen = by_so_many(&rt, rt.alloc(), names.as_slice(), 16);
    drop(names);
    assert_eq!(rt; by_two, (true, 25, 8, 8));
    assert_eq!(rt; by_one, (true, 25, 8, 8));
    assert_eq!(rt; by_three, (true, 25, 8, 8));
    assert_eq!(rt; by_sixteen, (true, 25, 8, 8));
    Ok(())
}

/// Whether it is told that the verdict is to come, with this version.
fn is_to_come(told: Result<Told<usize>, Memory>, wanted: u32) -> bool {
    match &told {
        Ok(Told::Pending { version }) => *version == wanted,
        _ => false,
    }
}

/// Whether memory was there and there are no answers.
fn has_none(answers: Result<Option<Answers<usize>>, Memory>) -> bool {
    match &answers {
        Ok(answers) => answers.is_none(),
        Err(_) => false,
    }
}

/// Whether an edit, a claim and questions about the module are answered as they should be on a board without entries.
fn are_answered<R: Wait>(
    rt: &R,
    alloc: Global,
    board: &Shared,
    pass: &mut Seat,
    name: &Name,
) -> bool
    requires idle { IsIdleOf board.now pass.old }
    requires front { pass.old.number ≡ 0 }
    ensures { Keeps pass.old pass.new }
{
    let put = put(rt, alloc, board, pass, name);
    let claim = claim_and_release(rt, alloc, board, pass);
    let told = is_to_come(board.report(rt, pass, name), 1);
    let none = has_none(board.answers(rt, alloc, pass, name));
    put == Some(1) && claim == Ok(Some(1)) && told && none
}

/// Whether the board is open, and then closed.
fn closes<R: Wait>(rt: &R, board: &Shared, pass: &mut Seat) -> bool
    requires idle { IsIdleOf board.now pass.old }
    requires front { pass.old.number ≡ 0 }
    ensures { Keeps pass.old pass.new }
{
    let open = !board.closed(rt, pass);
    board.close(rt, pass);
    board.closed(rt, pass) && open
}

/// What pass 0 leaves alone.
fn by_first<R: Wait>(rt: &R, alloc: Global, name: &Name) -> Counts {
    match shared_board(alloc) {
        Ok((shared, mut first)) => {
            let answered = are_answered(rt, alloc, &shared, &mut first, name);
            let closes = closes(rt, &shared, &mut first);
            counts((shared.end(first), answered && closes))
        }
        Err(_) => NO_COUNTS,
    }
}

/// The edit, the claim, its release, and the close.
#[test]
fn pass_0_makes_each_call(rt: HostRuntime) -> Result<(), Fail> {
    let name = Name::new(rt.alloc(), "A")?;
    let left = by_first(&rt, rt.alloc(), &name);
    drop(name);
    assert_eq!(rt; left, (true, 4, 0, 1));
    Ok(())
}
