//! A folder that is checked over a board of its own.
ghost use Rattle.std.specs.Prelude.{◌≡◌, ◌≤◌, true, [], None, IfSome, IsNone, IsSome};
ghost use Rattle.mmt_outside.specs.Faults.{Rose};
ghost use Rattle.board_meaning.specs.Events.{log_of};
ghost use Rattle.board_meaning.specs.Legal.{IsLegal};
ghost use Rattle.board_meaning.specs.Ready.{is_closed};
ghost use Rattle.text_meaning.specs.Dependencies.{dependencies};
ghost use Rattle.run_status.specs.Flushed.{FlushesAt};
ghost use Rattle.run_status.specs.Taking.{TookOn};
ghost use Rattle.folder_front.specs.Checked.{IsCheckStatus, IsFolderLed};
ghost use Rattle.command_words_meaning.specs.WordLists.{CheckFolder};
ghost use Rattle.mmt_top.specs.FolderChecks.{PrintsFolder, LeavesFolder};
ghost use Rattle.mmt_top.specs.Typing.{TellsTyped};

use crate::ended::{Ended, unbegun};
use board_front::{Hall, Mmt};
use board_seats::BoardPass;
use folder_front::lead_check;
use mmt_outside::{Folder, Gate, Sink};
use run_status::Status;
use std::alloc::Global;
use std::sync::Wait;
use std::thread::Threads;
use verdict_board::Board;
use worker_crew::{Front, Means, lead};

/// Checks the folder of this path, and writes what is printed to a sink.
#[derive(Drop)]
struct FolderFront<'p> {
    path: &'p str,
}

impl<F: Folder, K: Sink> Front<Mmt, F, K> for FolderFront<'_> {
    type End = Status;

    ghost leads = { λ front status folder left sink written last. IsFolderLed status front.path.now (F.files folder) (F.files left) (F.faults folder) (F.faults left)
        (K.taken sink) (K.taken written) (K.faults sink) (K.faults written) last };

    fn lead<R: Wait, G: Gate>(
        &self,
        hall: &Hall<'_, R, Mmt, G>,
        pass: &mut BoardPass<Mmt>,
        folder: &mut F,
        sink: &mut K,
    ) -> Status {
        lead_check(hall, pass, self.path, folder, sink)
    }
}

/// Checks the folder on a board that has no entries.
fn check_on<R: Threads + Wait + Sync, K: Sink + Send, F: Folder + Send, G: Gate + Sync>(
    means: &Means<'_, R, Mmt, G>,
    board: Board<Mmt>,
    workers: u32,
    path: &str,
    sink: &mut K,
    folder: &mut F,
) -> Ended
    requires empty { board ≡ [] }
    requires workers { workers ≤ 16 }
    ensures led { IfSome result.board (IsFolderLed result.status path.now (F.files folder.old) (F.files folder.new) (F.faults folder.old) (F.faults folder.new)
        (K.taken sink.old) (K.taken sink.new) (K.faults sink.old) (K.faults sink.new)) }
    ensures some { IsSome result.board }
{
    let front = FolderFront { path };
    let led = lead(means, board, workers, &front, folder, sink);
    match led.end {
        Some(status) => Ended {
            status,
            board: Some(led.board),
        },
        None => unbegun(led.board),
    }
}

/// Checks the files of a folder whose names end in `.elf`, and hands back the board on which their modules were judged. So many
/// workers, at most 16, judge modules beside it, each in a thread of its own where one can be made; they have ended when it answers.
pub fn check_folder<R: Threads + Wait + Sync, K: Sink + Send, F: Folder + Send, G: Gate + Sync>(
    rt: &R,
    alloc: Global,
    workers: u32,
    path: &str,
    sink: &mut K,
    folder: &mut F,
    gate: &G,
) -> Ended
    requires workers { workers ≤ 16 }

    // Where the folder tells its files: at Done no module and no file is refused, at Refused one is, and at both all of the output is
    // written and flushed; with any other status a first part of the output is written.
    ensures output { IfSome (F.files folder.old) (PrintsFolder result.status (K.taken sink.old) (K.taken sink.new) path.now) }
    ensures status { IsCheckStatus result.status }

    // There is no board only where memory was wanting for it, and then nothing was read or written. Its history is legal, and it is
    // closed. Where the folder tells its files, its edits are those that put the modules of the files, and with another status than
    // Done and Refused the first of these; where the sink tells its bytes too, all that is told by the lines of which a byte was
    // written stands after some beginning of the history at their version.
    ensures none { IsNone result.board → result.status ≡ Status.Memory }
    ensures untouched { IsNone result.board → (folder.new ≡ folder.old) × (sink.new ≡ sink.old) }
    ensures legal { IfSome result.board (λ board. IsLegal dependencies board) }
    ensures closed { IfSome result.board (λ board. is_closed board ≡ true) }
    ensures leaves { IfSome (F.files folder.old) (λ told. IfSome result.board (LeavesFolder result.status (K.taken sink.old) (K.taken sink.new) told path.now)) }

    // What is told of modules keeps typing, in the library of all modules.
    ensures typed { TellsTyped (CheckFolder path.now) None (F.files folder.old) }

    // The folder is left as it is.
    ensures same { F.files folder.new ≡ F.files folder.old }

    // At Done and Refused all that the sink took is flushed, whether or not the folder tells its files.
    ensures flush { FlushesAt result.status (K.taken sink.new) }

    // With every status, and whether or not the folder tells its files, what the sink tells that it had taken is a beginning of what
    // it tells afterwards.
    ensures took { TookOn (K.taken sink.old) (K.taken sink.new) }

    // Faults have their causes, and counts never fall.
    ensures read { result.status ≡ Status.ReadFault → Rose (F.faults folder.old) (F.faults folder.new) }
    ensures write { result.status ≡ Status.WriteFault → Rose (K.faults sink.old) (K.faults sink.new) }
    ensures folder_later { F.faults folder.old ≤ F.faults folder.new }
    ensures sink_later { K.faults sink.old ≤ K.faults sink.new }
{
    let Ok(board) = Board::new(alloc, Mmt) else {
        return Ended {
            status: Status::Memory,
            board: None,
        };
    };
    let means = Means {
        rt,
        alloc,
        subject: &Mmt,
        gate,
    };
    check_on(&means, board, workers, path, sink, folder)
}
