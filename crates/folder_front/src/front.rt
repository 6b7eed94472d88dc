//! A folder that is checked on a shared board.
ghost use Rattle.std.specs.Prelude.{◌≡◌, ◌≤◌, [], IfOk, IfSome, IsErrOf, OnOk};
ghost use Rattle.mmt_outside.specs.Faults.{Rose};
ghost use Rattle.board_meaning.specs.Legal.{IsLegal};
ghost use Rattle.text_meaning.specs.Dependencies.{dependencies};
ghost use Rattle.board_seats.specs.Seats.{Keeps};
ghost use Rattle.board_front.specs.Staying.{IsAtFront};
ghost use Rattle.run_status.specs.Flushed.{IsFlushed};
ghost use Rattle.run_status.specs.Taking.{TookOn};
ghost use Rattle.folder_front.specs.Checked.{FolderEnds, IsFolderLed, IsWholeStatus};
ghost use Rattle.folder_front.specs.Stops.{status_by};
ghost use Rattle.folder_front.specs.declared.stop.Stop.TheVariants.{Read, Write};

use crate::edits::make_edits;
use crate::printing::print;
use crate::sheet::Sheet;
use crate::stop::Stop;
use board_front::{Hall, Mmt, close};
use board_seats::BoardPass;
use folder_load::load;
use mmt_outside::{Folder, Gate, Sink};
use run_status::Status;
use std::sync::Wait;

/// Loads the folder, puts its modules on a board that has no entries, brings each to a verdict, and writes the lines.
fn check<R: Wait, F: Folder, K: Sink, G: Gate>(
    hall: &Hall<'_, R, Mmt, G>,
    pass: &mut BoardPass<Mmt>,
    path: &str,
    folder: &mut F,
    sink: &mut K,
) -> Result<Status, Stop>
    requires at_front { IsAtFront hall.now.board.now pass.old }
    requires empty { pass.old.seen ≡ [] }
    ensures keeps { Keeps pass.old pass.new }
    ensures legal { IsLegal dependencies pass.new.seen }
    ensures ends { IfSome (F.files folder.old) (λ told. FolderEnds (status_by result) (K.taken sink.old) (K.taken sink.new) told path.now pass.new.seen) }
    ensures whole { IfOk result IsWholeStatus }
    ensures flush { OnOk result (IsFlushed (K.taken sink.new)) }
    ensures read { IsErrOf result Read → Rose (F.faults folder.old) (F.faults folder.new) }
    ensures write { IsErrOf result Write → Rose (K.faults sink.old) (K.faults sink.new) }
    ensures folder_later { F.faults folder.old ≤ F.faults folder.new }
    ensures sink_later { K.faults sink.old ≤ K.faults sink.new }
    ensures took { TookOn (K.taken sink.old) (K.taken sink.new) }
    ensures same { F.files folder.new ≡ F.files folder.old }
{
    let loaded = load(hall.alloc, folder, path)?;
    let log = make_edits(hall, pass, &loaded.log)?;
    let sheet = Sheet::new(hall.alloc, log, loaded)?;
    print(hall, pass, &sheet, sink)
}

/// The front of a checked folder. It loads the files of the folder and puts their modules on a board that has no entries, through
/// pass 0; it brings each module to a verdict, by turns of its own where that is still to come; and it writes the line of each
/// file that is refused, the verdict line of each module, in byte order of names and with places counted in the files, and the
/// line of the counts, and flushes. In every case it closes the board.
///
/// `Done` where no module and no file is refused, and else `Refused`. `ReadFault` is an error of the folder and `WriteFault` one of
/// the sink: their counts rose. `Memory` is want of memory, as which more files than a `u32` counts are answered too.
pub fn lead_check<R: Wait, F: Folder, K: Sink, G: Gate>(
    hall: &Hall<'_, R, Mmt, G>,
    pass: &mut BoardPass<Mmt>,
    path: &str,
    folder: &mut F,
    sink: &mut K,
) -> Status
    requires at_front { IsAtFront hall.now.board.now pass.old }
    requires empty { pass.old.seen ≡ [] }
    ensures keeps { Keeps pass.old pass.new }
    ensures led { IsFolderLed result path.now (F.files folder.old) (F.files folder.new) (F.faults folder.old) (F.faults folder.new)
        (K.taken sink.old) (K.taken sink.new) (K.faults sink.old) (K.faults sink.new) pass.new.seen }
{
    let checked = check(hall, pass, path, folder, sink);
    close(hall, pass);
    match checked {
        Ok(status) => status,
        Err(stop) => stop.status(),
    }
}
