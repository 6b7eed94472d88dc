//! What is read of an edit before it is made.
ghost use Rattle.std.specs.Prelude.{◌≡◌, true};
ghost use Rattle.edit_log_meaning.specs.Append.{is_short};
ghost use Rattle.text_meaning.specs.Dependencies.{dependencies};
ghost use Rattle.edit_log.specs.Readings.{read_edit};
ghost use Rattle.verdict_board.specs.ReadBefore.{AreReadBefore};

use edit_log::{Edit, Edited, Log};
use lf_terms::Names;
use module_check::Mmt;
use module_graph::Subject;
use std::alloc::Global;

/// The dependencies of the text that an edit puts, where the edit will be made: they are read before the board is taken, so that no
/// worker waits meanwhile. None where nothing will be put, and for want of memory: then the board reads what it needs.
pub(crate) fn read_before(alloc: Global, log: &Log, edit: &Edit) -> Option<Names>
    ensures { AreReadBefore dependencies (read_edit edit.now) result }
{
    match log.answer(edit) {
        Ok(Edited::Made(_)) => put_dependencies(alloc, edit),
        _ => None,
    }
}

/// The dependencies of the text that an edit puts, if it puts one and memory suffices.
fn put_dependencies(alloc: Global, edit: &Edit) -> Option<Names>
    requires { is_short (read_edit edit.now) ≡ true }
    ensures { AreReadBefore dependencies (read_edit edit.now) result }
{
    match edit {
        Edit::Put { name, text } => Mmt.deps(alloc, name, text.get().as_slice()).ok(),
        Edit::Drop { .. } => None,
    }
}
