//! Edits and reports: what they do to the board, and the lines that answer them.
ghost use Rattle.std.specs.Prelude.{◌≡◌, ◌≤◌, IfOk, None, OnErr, OnOk, Some, length, map};
ghost use Rattle.edit_log_meaning.specs.Log.{edited_name, library_of, names_of};
ghost use Rattle.edit_log_meaning.specs.Append.{append_answer, appended};
ghost use Rattle.edit_log.specs.Readings.{read_edit};
ghost use Rattle.printing_meaning.specs.EditLines as lines;
ghost use Rattle.printing_meaning.specs.EditLines.{edit_word, edited_line};
ghost use Rattle.run_meaning.specs.Parts.{parts_text};
ghost use Rattle.run_meaning.specs.ScriptOutput as output;
ghost use Rattle.judged_meaning.specs.JudgingByRules.{rules};
ghost use Rattle.board_seats.specs.Seats.{Keeps};
ghost use Rattle.board_front.specs.Staying.{AllStand, Edits, IsAtFront, IsFront, MayEdit, StandsIfGrounded, Stays};
ghost use Rattle.board_front.specs.Told.{IsToldOf};
ghost use Rattle.board_front.specs.Words.{made_by, word_by};

use crate::calls;
use crate::reading::read_before;
use crate::verdict::told;
use board_seats::BoardPass;
use edit_log::{Edit, EditFault, Edited, Log};
use lf_terms::{Bytes, Memory, Name};
use mmt_interface::Verdict;
use mmt_outside::Gate;
use module_check::Mmt;
use report_text::{edit_line, told_line};
use std::alloc::Global;
use std::sync::Wait;
use verdict_board::Told;
use worker_loop::Hall;

/// The greatest number of modules in a library.
const MODULE_LIMIT: usize = 4_096;

/// Makes an edit, unless the log's rules refuse it, and answers its line. The log is the front's own: it has the edits of the
/// board.
pub fn edit_lines<R: Wait, G>(
    hall: &Hall<'_, R, Mmt, G>,
    pass: &mut BoardPass<Mmt>,
    log: &mut Log,
    edit: Edit,
) -> Result<Bytes, Memory>
    requires at_front { IsAtFront hall.now.board.now pass.old }
    requires front { IsFront log.old pass.old.seen }
    ensures keeps { Keeps pass.old pass.new }
    ensures edits { OnOk result (Edits (read_edit edit) pass.old.seen pass.new.seen) }
    ensures log { OnOk result (log.new ≡ appended log.old (read_edit edit)) }
    ensures line { IfOk result (λ line. line ≡ edited_line log.old (read_edit edit)) }
    ensures so_far { OnErr result (MayEdit (read_edit edit) pass.old.seen pass.new.seen) }
{
    let name = name_of(&edit).copy(hall.alloc)?;
    let word = make_edit(hall, pass, log, edit)?;
    edit_line(hall.alloc, word, &name, log.version())
}

/// The name that an edit is of.
fn name_of(edit: &Edit) -> &Name
    ensures { result.now ≡ edited_name (read_edit edit.now) }
{
    match edit {
        Edit::Put { name, .. } => name,
        Edit::Drop { name } => name,
    }
}

/// The word of an edit that is made.
fn made_word(edit: &Edit) -> &'static str
    ensures { result.now ≡ lines.made_word (read_edit edit.now) }
{
    match edit {
        Edit::Put { .. } => "put",
        Edit::Drop { .. } => "drop",
    }
}

/// Whether an edit was made that was answered so.
fn is_made(answer: &Result<Edited, EditFault>) -> bool
    ensures { result ≡ made_by answer.now }
{
    matches!(answer, Ok(Edited::Made(_)))
}

/// The word of an edit that was answered so, where the first is that of an edit that is made. `Memory`: so was the answer.
fn answer_word(
    made: &'static str,
    answer: Result<Edited, EditFault>,
) -> Result<&'static str, Memory>
    ensures word { IfOk result (λ word. Some word.now ≡ word_by made.now answer) }
    ensures memory { OnErr result (word_by made.now answer ≡ None) }
{
    match answer {
        Ok(Edited::Made(_)) => Ok(made),
        Ok(Edited::Same(_)) => Ok("same"),
        Ok(Edited::Absent(_)) => Ok("absent"),
        Err(EditFault::Full) => Ok("full"),
        Err(EditFault::TooLong) => Ok("too-long"),
        Err(EditFault::TooMany) => Ok("too-many"),
        Err(EditFault::Memory) => Err(Memory),
    }
}

/// Makes an edit on the board, unless the log's rules refuse it, and on the log what the board made. The log is the front's own: it
/// has the edits of the board. The answer is the word for the edit.
pub fn make_edit<R: Wait, G>(
    hall: &Hall<'_, R, Mmt, G>,
    pass: &mut BoardPass<Mmt>,
    log: &mut Log,
    edit: Edit,
) -> Result<&'static str, Memory>
    requires at_front { IsAtFront hall.now.board.now pass.old }
    requires front { IsFront log.old pass.old.seen }
    ensures keeps { Keeps pass.old pass.new }
    ensures edits { OnOk result (Edits (read_edit edit) pass.old.seen pass.new.seen) }
    ensures log { OnOk result (log.new ≡ appended log.old (read_edit edit)) }
    ensures word { IfOk result (λ word. word.now ≡ edit_word (read_edit edit) (append_answer log.old (read_edit edit))) }
    ensures so_far { OnErr result (MayEdit (read_edit edit) pass.old.seen pass.new.seen) }
{
    let word = made_word(&edit);
    let Ok(copy) = edit.copy(hall.alloc) else {
        drop(edit);
        return Err(Memory);
    };
    let known = read_before(hall.alloc, log, &edit);
    let answer = calls::edit(hall, pass, edit, known);
    if !is_made(&answer) {
        drop(copy);
        return answer_word(word, answer);
    }
    match log.append(hall.alloc, copy) {
        Ok(_) => Ok(word),
        Err(_) => Err(Memory),
    }
}

/// The verdict line of a name, which is brought to a verdict.
pub fn report_lines<R: Wait, G: Gate>(
    hall: &Hall<'_, R, Mmt, G>,
    pass: &mut BoardPass<Mmt>,
    log: &Log,
    name: &Name,
) -> Result<Bytes, Memory>
    requires at_front { IsAtFront hall.now.board.now pass.old }
    requires front { IsFront log.now pass.old.seen }
    ensures keeps { Keeps pass.old pass.new }
    ensures stays { Stays pass.old.seen pass.new.seen }
    ensures line { IfOk result (λ line. line ≡ output.report_text rules log.now name.now) }
    ensures stands { OnOk result (StandsIfGrounded pass.new.seen name.now) }
{
    let told = told(hall, pass, name)?;
    line(hall.alloc, log, name, &told)
}

/// The verdict line of a name of which this is told.
pub(crate) fn line(
    alloc: Global,
    log: &Log,
    name: &Name,
    told: &Told<Verdict>,
) -> Result<Bytes, Memory>
    requires { IsToldOf log.now name.now told.now }
    ensures { IfOk result (λ line. line ≡ output.report_text rules log.now name.now) }
{
    told_line(alloc, name, told, log.text(name), None)
}

/// A number of modules that the library does not pass: a log keeps to its limits, as `version` says.
fn most_modules(log: &Log) -> usize
    ensures { length (names_of (library_of log.now)) ≤ result }
{
    log.version();
    MODULE_LIMIT
}

/// The verdict line of each module, in byte order of names. Each is brought to a verdict.
pub fn check_lines<R: Wait, G: Gate>(
    hall: &Hall<'_, R, Mmt, G>,
    pass: &mut BoardPass<Mmt>,
    log: &Log,
) -> Result<Bytes, Memory>
    requires at_front { IsAtFront hall.now.board.now pass.old }
    requires front { IsFront log.now pass.old.seen }
    ensures keeps { Keeps pass.old pass.new }
    ensures stays { Stays pass.old.seen pass.new.seen }
    ensures lines { IfOk result (λ lines. lines ≡ parts_text (map (output.report_part rules log.now) (names_of (library_of log.now)))) }
    ensures stand { OnOk result (AllStand pass.new.seen (names_of (library_of log.now))) }
{
    let mut lines = Bytes::new(hall.alloc);
    for place in 0..most_modules(log) {
        let Some(name) = log.name_at(place) else {
            break;
        };
        let line = report_lines(hall, pass, log, name)?;
        lines.extend(line.as_slice())?;
    }
    Ok(lines)
}
