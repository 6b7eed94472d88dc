//! The modules whose verdicts are to come are brought to verdicts.
ghost use Rattle.std.specs.Prelude.{◌≤◌, OnOk, length};
ghost use Rattle.edit_log_meaning.specs.Log.{library_of, names_of};
ghost use Rattle.text_meaning.specs.Dependencies.{dependencies};
ghost use Rattle.install_laws.specs.InstallLaws.{AllStand};
ghost use Rattle.board_seats.specs.Seats.{Keeps};
ghost use Rattle.board_front.specs.Staying.{IsAtFront, IsFront, Stays};

use crate::verdicts::MODULE_LIMIT;
use board_front::{Hall, Mmt, told};
use board_seats::BoardPass;
use edit_log::Log;
use lf_terms::Memory;
use mmt_outside::Gate;
use std::sync::Wait;

/// A number of modules that the library does not pass: a log keeps to its limits, as `version` says.
fn most_modules(log: &Log) -> usize
    ensures { length (names_of (library_of log.now)) ≤ result }
{
    log.version();
    MODULE_LIMIT
}

/// Brings every module of the library to a verdict, and looks up those alone whose verdict is to come: behind an edit these are
/// those that reach what was edited. The log is the front's own: it has the edits of the board.
pub(crate) fn settle<R: Wait, G: Gate>(
    hall: &Hall<'_, R, Mmt, G>,
    pass: &mut BoardPass<Mmt>,
    log: &Log,
) -> Result<(), Memory>
    requires at_front { IsAtFront hall.now.board.now pass.old }
    requires front { IsFront log.now pass.old.seen }
    ensures keeps { Keeps pass.old pass.new }
    ensures stays { Stays pass.old.seen pass.new.seen }
    ensures stand { OnOk result (AllStand dependencies pass.new.seen) }
{
    let mut from = 0;
    for _ in 0..most_modules(log) {
        let Some(place) = hall.board.first_pending(hall.rt, pass, from) else {
            break;
        };
        let Some(name) = log.name_at(place) else {
            break;
        };
        told(hall, pass, name)?;
        from = place + 1;
    }
    Ok(())
}
