//! Every module is brought to a verdict.
ghost use Rattle.std.specs.Prelude.{◌≡◌, ◌≤◌, IfOk, OnOk, length};
ghost use Rattle.edit_log_meaning.specs.Log.{library_of, names_of};
ghost use Rattle.text_meaning.specs.Dependencies.{dependencies};
ghost use Rattle.install_laws.specs.InstallLaws.{AllStand};
ghost use Rattle.board_seats.specs.Seats.{Keeps};
ghost use Rattle.board_front.specs.Staying.{IsAtFront, IsFront, Stays};
ghost use Rattle.generator_front.specs.Generated.{AreCountsOf};

use crate::counts::Counts;
use board_front::{Hall, Mmt, told};
use board_seats::BoardPass;
use edit_log::Log;
use lf_terms::Memory;
use mmt_outside::Gate;
use std::sync::Wait;

/// The greatest number of modules in a library.
pub(crate) const MODULE_LIMIT: usize = 4_096;

/// Brings every module of the library to a verdict, in byte order of names, with one look-up for each, and counts them. The log is
/// the front's own: it has the edits of the board.
pub(crate) fn verdicts<R: Wait, G: Gate>(
    hall: &Hall<'_, R, Mmt, G>,
    pass: &mut BoardPass<Mmt>,
    log: &Log,
) -> Result<Counts, Memory>
    requires at_front { IsAtFront hall.now.board.now pass.old }
    requires front { IsFront log.now pass.old.seen }
    ensures keeps { Keeps pass.old pass.new }
    ensures stays { Stays pass.old.seen pass.new.seen }
    ensures counted { IfOk result (AreCountsOf log.now) }
    ensures stand { OnOk result (AllStand dependencies pass.new.seen) }
{
    let mut counts = Counts {
        version: log.version(),
        accepted: 0,
        refused: 0,
        declarations: 0,
    };
    for place in 0..MODULE_LIMIT {
        let Some(name) = log.name_at(place) else {
            break;
        };
        let told = told(hall, pass, name)?;
        counts.count(&told)?;
    }
    Ok(counts)
}
