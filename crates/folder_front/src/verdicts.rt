//! The verdict lines of all modules.
ghost use Rattle.std.specs.Prelude.{◌≡◌, ◌+◌, ◌≤◌, ◌∷◌, [], IfOk, length, map, not};
ghost use Rattle.name_meaning.specs.Names.{Name};
ghost use Rattle.edit_log_meaning.specs.Log as logs;
ghost use Rattle.edit_log_meaning.specs.Log.{library_of, names_of};
ghost use Rattle.run_meaning.specs.Folders as meant;
ghost use Rattle.judged_meaning.specs.JudgingByRules.{rules};
ghost use Rattle.board_seats.specs.Seats.{Keeps};
ghost use Rattle.board_front.specs.Staying.{IsAtFront, IsFront, Stays};
ghost use Rattle.board_front.specs.Told.{IsToldOf};
ghost use Rattle.folder_front.specs.Sheets.{names_in, tally_of, verdict_part, verdict_text};
ghost use Rattle.folder_front.specs.Stops.{StopHasCause};
ghost use Rattle.folder_front.specs.Written.{Writes};

use crate::sheet::Sheet;
use crate::stop::Stop;
use crate::tally::Tally;
use board_front::{Hall, Mmt, told};
use board_seats::BoardPass;
use edit_log::Log;
use lf_terms::{Bytes, Memory, Name};
use mmt_interface::Verdict;
use mmt_outside::{Gate, Sink, write_all};
use report_text::told_line;
use std::alloc::Global;
use std::sync::Wait;
use verdict_board::Told;

/// The greatest number of modules in a library.
const MODULE_LIMIT: usize = 4_096;

/// A number of modules that the library does not pass: a log keeps to its limits, as `version` says.
fn most_modules(log: &Log) -> usize
    ensures most { length (names_of (library_of log.now)) ≤ result }
    ensures limit { result ≤ 4096 }
{
    log.version();
    MODULE_LIMIT
}

/// Whether it is told that a module is accepted.
fn is_accepted(told: &Told<Verdict>) -> bool
    ensures { (log : logs.Log) (name : Name) → IsToldOf log name told.now → result ≡ not (meant.is_refused (rules.judged (library_of log) name)) }
{
    match told {
        Told::Verdict { answer, .. } => match answer {
            Verdict::Accepted(_) => true,
            Verdict::Refused(_) => false,
        },
        Told::Pending { .. } => false,
        Told::Absent { .. } => false,
    }
}

/// The line of what is told of a name. A place is counted in the file from which the module came.
fn verdict_line(
    alloc: Global,
    sheet: &Sheet,
    name: &Name,
    told: &Told<Verdict>,
) -> Result<Bytes, Memory>
    requires { IsToldOf sheet.now.log name.now told.now }
    ensures { IfOk result (λ line. line ≡ verdict_text sheet.now name.now) }
{
    told_line(
        alloc,
        name,
        told,
        sheet.log.text(name),
        sheet.origins.get(name),
    )
}

/// Brings a module to a verdict and writes its line. The answer is whether it is accepted.
fn write_verdict<R: Wait, K: Sink, G: Gate>(
    hall: &Hall<'_, R, Mmt, G>,
    pass: &mut BoardPass<Mmt>,
    sheet: &Sheet,
    sink: &mut K,
    name: &Name,
) -> Result<bool, Stop>
    requires at_front { IsAtFront hall.now.board.now pass.old }
    requires front { IsFront sheet.now.log pass.old.seen }
    ensures keeps { Keeps pass.old pass.new }
    ensures stays { Stays pass.old.seen pass.new.seen }
    ensures writes { Writes result (K.taken sink.old) (K.taken sink.new) (verdict_part sheet.now name.now ∷ []) pass.new.seen }
    ensures accepted { IfOk result (λ accepted. accepted ≡ not (meant.is_refused (rules.judged (library_of sheet.now.log) name.now))) }
    ensures cause { StopHasCause (K.faults sink.old) (K.faults sink.new) result }
{
    let told = told(hall, pass, name)?;
    let line = verdict_line(hall.alloc, sheet, name, &told)?;
    write_all(sink, line.as_slice())?;
    Ok(is_accepted(&told))
}

/// Brings each module to a verdict and writes its line, in byte order of names.
pub(crate) fn write_verdicts<R: Wait, K: Sink, G: Gate>(
    hall: &Hall<'_, R, Mmt, G>,
    pass: &mut BoardPass<Mmt>,
    sheet: &Sheet,
    sink: &mut K,
) -> Result<Tally, Stop>
    requires at_front { IsAtFront hall.now.board.now pass.old }
    requires front { IsFront sheet.now.log pass.old.seen }
    ensures keeps { Keeps pass.old pass.new }
    ensures stays { Stays pass.old.seen pass.new.seen }
    ensures writes { Writes result (K.taken sink.old) (K.taken sink.new) (map (verdict_part sheet.now) (names_in sheet.now)) pass.new.seen }
    ensures tally { IfOk result (λ tally. tally ≡ tally_of sheet.now (names_in sheet.now)) }
    ensures small { IfOk result (λ tally. tally.accepted + tally.refused ≤ 4096) }
    ensures cause { StopHasCause (K.faults sink.old) (K.faults sink.new) result }
{
    let mut tally = Tally {
        accepted: 0,
        refused: 0,
    };
    for place in 0..most_modules(&sheet.log) {
        let Some(name) = sheet.log.name_at(place) else {
            break;
        };
        let is_accepted = write_verdict(hall, pass, sheet, sink, name)?;
        tally.count(is_accepted);
    }
    Ok(tally)
}
