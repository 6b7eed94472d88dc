//! A name is brought to a verdict.
ghost use Rattle.std.specs.Prelude.{◌≡◌, IfOk, IfSome, OnOk, nat_eq};
ghost use Rattle.board_meaning.specs.Events.{log_of};
ghost use Rattle.board_meaning.specs.Legal.{IsLegal};
ghost use Rattle.board_meaning.specs.Turns.{judged_in};
ghost use Rattle.text_meaning.specs.Dependencies.{dependencies};
ghost use Rattle.board_seats.specs.Seats.{Keeps};
ghost use Rattle.worker_loop.specs.Ends.{read_end};
ghost use Rattle.board_front.specs.Staying.{IsAtFront, StandsIfGrounded, Stays};
ghost use Rattle.board_front.specs.Told.{IsToldOf};

use crate::calls::{next_turn, report};
use board_seats::BoardPass;
use lf_terms::{Memory, Name};
use mmt_interface::Verdict;
use mmt_outside::Gate;
use module_check::Mmt;
use std::sync::Wait;
use verdict_board::Told;
use worker_loop::{Hall, TurnEnd};

/// What is told of a name now, unless its verdict is to come.
fn told_now<R: Wait, G>(
    hall: &Hall<'_, R, Mmt, G>,
    pass: &mut BoardPass<Mmt>,
    name: &Name,
) -> Result<Option<Told<Verdict>>, Memory>
    requires front { IsAtFront hall.now.board.now pass.old }
    ensures keeps { Keeps pass.old pass.new }
    ensures stays { Stays pass.old.seen pass.new.seen }
    ensures told { IfOk result (λ told. IfSome told (λ told. IsToldOf (log_of pass.new.seen) name.now told × StandsIfGrounded pass.new.seen name.now)) }
{
    match report(hall, pass, name)? {
        Told::Verdict { answer, version } => Ok(Some(Told::Verdict { answer, version })),
        Told::Absent { version } => Ok(Some(Told::Absent { version })),
        Told::Pending { .. } => Ok(None),
    }
}

/// Whether a turn found no name ready.
fn found_nothing(end: TurnEnd) -> bool
    ensures { result ≡ nat_eq (judged_in (read_end end)) 0 }
{
    match end {
        TurnEnd::Worked { .. } => false,
        TurnEnd::Idle | TurnEnd::Closed => true,
    }
}

/// What is told of a name once its verdict is not to come. While it is to come, turns are taken, however many workers there are. Where
/// nothing is ready, another claim is open, and the front sleeps until one ends, at most for a tenth of a second.
pub fn told<R: Wait, G: Gate>(
    hall: &Hall<'_, R, Mmt, G>,
    pass: &mut BoardPass<Mmt>,
    name: &Name,
) -> Result<Told<Verdict>, Memory>
    requires front { IsAtFront hall.now.board.now pass.old }
    requires legal { IsLegal dependencies pass.old.seen }
    ensures keeps { Keeps pass.old pass.new }
    ensures stays { Stays pass.old.seen pass.new.seen }
    ensures told { IfOk result (IsToldOf (log_of pass.new.seen) name.now) }
    ensures stands { OnOk result (StandsIfGrounded pass.new.seen name.now) }
{
    for _ in hall.rt.forever() {
        let announced = hall.board.announce_end();
        if let Some(told) = told_now(hall, pass, name)? {
            return Ok(told);
        }
        if found_nothing(next_turn(hall, pass)?) {
            announced.wait(hall.rt);
        }
    }
    unreachable!()
}
