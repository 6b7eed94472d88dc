//! The lines of the files that were not loaded.
ghost use Rattle.std.specs.Prelude.{map};
ghost use Rattle.board_meaning.specs.Events.{History};
ghost use Rattle.folder_front.specs.Sheets.{fault_part};
ghost use Rattle.folder_front.specs.Stops.{StopHasCause};
ghost use Rattle.folder_front.specs.Written.{Writes};

use crate::stop::Stop;
use mmt_outside::{Sink, write_all};
use mmt_syntax::FileFaults;
use report_text::file_line;
use std::alloc::Global;

/// Writes the line of each fault, in order.
pub(crate) fn write_faults<K: Sink>(
    alloc: Global,
    faults: &FileFaults,
    sink: &mut K,
) -> Result<(), Stop>
    ensures writes { (history : History) → Writes result (K.taken sink.old) (K.taken sink.new) (map fault_part faults.now) history }
    ensures cause { StopHasCause (K.faults sink.old) (K.faults sink.new) result }
{
    for fault in faults.as_slice() {
        let line = file_line(alloc, fault)?;
        write_all(sink, line.as_slice())?;
    }
    Ok(())
}
