//! The edits that put the modules of a folder on a board.
ghost use Rattle.std.specs.Prelude.{◌≡◌, [], IfOk, OnErr};
ghost use Rattle.edit_log_meaning.specs.Append.{appended_all};
ghost use Rattle.board_seats.specs.Seats.{Keeps};
ghost use Rattle.board_front.specs.Staying.{IsAtFront, IsFront};
ghost use Rattle.folder_front.specs.Edits.{MadeFirst};

use board_front::{Hall, Mmt, make_edit};
use board_seats::BoardPass;
use edit_log::Log;
use lf_terms::Memory;
use std::sync::Wait;

/// Makes the edits of a log on a board that has no entries, in order, and answers the log of the board.
pub(crate) fn make_edits<R: Wait, G>(
    hall: &Hall<'_, R, Mmt, G>,
    pass: &mut BoardPass<Mmt>,
    loaded: &Log,
) -> Result<Log, Memory>
    requires at_front { IsAtFront hall.now.board.now pass.old }
    requires empty { pass.old.seen ≡ [] }
    ensures keeps { Keeps pass.old pass.new }
    ensures made { IfOk result (λ log. log ≡ appended_all [] loaded.now) }
    ensures front { IfOk result (λ log. IsFront log pass.new.seen) }
    ensures so_far { OnErr result (MadeFirst loaded.now pass.new.seen) }
{
    let mut log = Log::new(hall.alloc);
    for before in 0..loaded.version() {
        if let Some(edit) = loaded.entry(before + 1) {
            let edit = edit.copy(hall.alloc)?;
            make_edit(hall, pass, &mut log, edit)?;
        }
    }
    Ok(log)
}
