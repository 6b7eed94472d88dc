//! What an edit changes in the texts of a library.
ghost use Rattle.std.specs.Prelude.{◌≡◌, OnErr, OnOk};
ghost use Rattle.edit_log_meaning.specs.Log.{edited};
ghost use Rattle.edit_log.specs.Readings.{read_edit, read_library};

use crate::Edit;
use lf_terms::{Arc, Bytes, Memory};
use name_table::NameTable;
use std::alloc::Global;

/// The texts after an edit, or unchanged for want of memory.
pub fn change_text(
    alloc: Global,
    texts: &mut NameTable<Arc<Bytes>>,
    edit: &Edit,
) -> Result<(), Memory>
    ensures ok { OnOk result (read_library texts.new ≡ edited (read_library texts.old) (read_edit edit.now)) }
    ensures err { OnErr result (texts.new ≡ texts.old) }
{
    match edit {
        Edit::Put { name, text } => {
            let name = name.copy(alloc)?;
            let text = text.share()?;
            match texts.insert(name, text) {
                Ok(()) => Ok(()),
                Err(_) => Err(Memory),
            }
        }
        Edit::Drop { name } => {
            texts.remove(name);
            Ok(())
        }
    }
}
