//! All lines of a checked folder.
ghost use Rattle.std.specs.Prelude.{◌≡◌, ◌+◌, ◌≤◌, ◌∷◌, [], OnOk};
ghost use Rattle.board_seats.specs.Seats.{Keeps};
ghost use Rattle.board_front.specs.Staying.{IsAtFront, IsFront, Stays};
ghost use Rattle.run_status.specs.Flushed.{IsFlushed};
ghost use Rattle.folder_front.specs.Sheets.{count_part, count_text, sheet_parts, names_in, tally_of};
ghost use Rattle.folder_front.specs.Stops.{StopHasCause};
ghost use Rattle.folder_front.specs.Written.{Finishes, Prints};

use crate::faults::write_faults;
use crate::sheet::Sheet;
use crate::stop::Stop;
use crate::tally::Tally;
use crate::verdicts::write_verdicts;
use board_front::{Hall, Mmt};
use board_seats::BoardPass;
use mmt_outside::{Gate, Sink};
use report_text::files_line;
use run_status::{Status, write_last};
use std::alloc::Global;
use std::sync::Wait;

/// Writes the line of the counts, and flushes.
fn write_counts<K: Sink>(alloc: Global, files: u32, tally: Tally, sink: &mut K) -> Result<(), Stop>
    requires small { tally.accepted + tally.refused ≤ 4096 }
    ensures finishes { Finishes result (K.taken sink.old) (K.taken sink.new) (count_text files tally) }
    ensures flush { OnOk result (IsFlushed (K.taken sink.new)) }
    ensures cause { StopHasCause (K.faults sink.old) (K.faults sink.new) result }
{
    let modules = tally.accepted + tally.refused;
    let line = files_line(alloc, files, modules, tally.accepted, tally.refused)?;
    write_last(sink, line.as_slice())?;
    Ok(())
}

/// Brings each module to a verdict and writes all lines: those of the files that were not loaded, those of the modules, and that of
/// the counts.
pub(crate) fn print<R: Wait, K: Sink, G: Gate>(
    hall: &Hall<'_, R, Mmt, G>,
    pass: &mut BoardPass<Mmt>,
    sheet: &Sheet,
    sink: &mut K,
) -> Result<Status, Stop>
    requires at_front { IsAtFront hall.now.board.now pass.old }
    requires front { IsFront sheet.now.log pass.old.seen }
    ensures keeps { Keeps pass.old pass.new }
    ensures stays { Stays pass.old.seen pass.new.seen }
    ensures prints { Prints result (K.taken sink.old) (K.taken sink.new) sheet.now pass.new.seen }
    ensures flush { OnOk result (IsFlushed (K.taken sink.new)) }
    ensures cause { StopHasCause (K.faults sink.old) (K.faults sink.new) result }
{
    write_faults(hall.alloc, &sheet.faults, sink)?;
    let tally = write_verdicts(hall, pass, sheet, sink)?;
    write_counts(hall.alloc, sheet.files, tally, sink)?;
    Ok(sheet.status(tally))
}
