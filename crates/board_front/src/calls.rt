//! What the front asks of the shared board, through pass 0.
ghost use Rattle.std.specs.Prelude.{◌≡◌, ◌<◌, true, IfOk, OnErr};
ghost use Rattle.std.specs.Option.{option_map};
ghost use Rattle.board_meaning.specs.Events.{log_of};
ghost use Rattle.board_meaning.specs.Ready.{is_closed};
ghost use Rattle.board_meaning.specs.Machine.{answers_reply, report_reply};
ghost use Rattle.board_meaning.specs.Turns.{Turns as IsTurn, TurnFindsNoMemory};
ghost use Rattle.edit_log_meaning.specs.Append.{append_answer};
ghost use Rattle.edit_log.specs.Readings.{read_edit, IsAnswer};
ghost use Rattle.module_graph.specs.Subjects.{read_answers};
ghost use Rattle.text_meaning.specs.Dependencies.{dependencies};
ghost use Rattle.verdict_board.specs.ReadBefore.{AreReadBefore};
ghost use Rattle.verdict_board.specs.Readings.{read_told};
ghost use Rattle.verdict_meaning.specs.Rounds.{modules};
ghost use Rattle.mmt_interface.specs.Readings.{read_verdict};
ghost use Rattle.board_seats.specs.Seats.{Keeps};
ghost use Rattle.worker_loop.specs.Ends.{read_end};
ghost use Rattle.board_front.specs.Staying.{EditGoes, IsAtFront, Stays};

use board_seats::BoardPass;
use edit_log::{Edit, EditFault, Edited};
use lf_terms::{Memory, Name, Names, Steps};
use mmt_interface::Verdict;
use mmt_outside::Gate;
use module_check::Mmt;
use module_graph::Answers;
use std::marker::Brand;
use std::sync::Wait;
use std::sync::ledger::{Blank, Ledger};
use verdict_board::Told;
use worker_loop::{Hall, TurnEnd, turn};

/// Makes an edit, unless it is refused. The dependencies of the text that it puts may have been read before.
pub(crate) fn edit<R: Wait, G>(
    hall: &Hall<'_, R, Mmt, G>,
    pass: &mut BoardPass<Mmt>,
    edit: Edit,
    known: Option<Names>,
) -> Result<Edited, EditFault>
    requires front { IsAtFront hall.now.board.now pass.old }
    requires known { AreReadBefore dependencies (read_edit edit) known }
    ensures keeps { Keeps pass.old pass.new }
    ensures answer { IsAnswer result (append_answer (log_of pass.old.seen) (read_edit edit)) }
    ensures goes { EditGoes result (read_edit edit) pass.old.seen pass.new.seen }
{
    hall.board
        .edit_read_before(hall.rt, hall.alloc, pass, edit, known)
}

/// What is told of a name now. Whoever asks takes a turn where the verdict is to come.
pub(crate) fn report<R: Wait, G>(
    hall: &Hall<'_, R, Mmt, G>,
    pass: &mut BoardPass<Mmt>,
    name: &Name,
) -> Result<Told<Verdict>, Memory>
    requires front { IsAtFront hall.now.board.now pass.old }
    ensures keeps { Keeps pass.old pass.new }
    ensures told { IfOk result (λ told. read_told read_verdict told ≡ report_reply modules pass.new.seen name.now) }
    ensures stays { Stays pass.old.seen pass.new.seen }
{
    hall.board.report_before_turn(hall.rt, pass, name)
}

/// The answers of what a name reaches, itself left out. None exactly where the library lacks the name, or it is ungrounded, or has
/// no standing verdict.
pub(crate) fn answers<R: Wait, G>(
    hall: &Hall<'_, R, Mmt, G>,
    pass: &mut BoardPass<Mmt>,
    name: &Name,
) -> Result<Option<Answers<Verdict>>, Memory>
    requires front { IsAtFront hall.now.board.now pass.old }
    ensures keeps { Keeps pass.old pass.new }
    ensures answers { IfOk result (λ answers. option_map (read_answers read_verdict) answers ≡ answers_reply modules pass.new.seen name.now) }
    ensures stays { Stays pass.old.seen pass.new.seen }
{
    hall.board.answers(hall.rt, hall.alloc, pass, name)
}

/// Closes the board, if it is not closed.
pub fn close<R: Wait, G>(hall: &Hall<'_, R, Mmt, G>, pass: &mut BoardPass<Mmt>)
    requires front { IsAtFront hall.now.board.now pass.old }
    ensures keeps { Keeps pass.old pass.new }
    ensures stays { Stays pass.old.seen pass.new.seen }
    ensures closed { is_closed pass.new.seen ≡ true }
{
    hall.board.close(hall.rt, pass);
}

/// The next turn of the front: where a name is ready, it is judged and its verdict brought. Where all workers are at work the front
/// rests for a bounded time before its turn, since it might have no processor for itself.
pub(crate) fn next_turn<R: Wait, G: Gate>(
    hall: &Hall<'_, R, Mmt, G>,
    pass: &mut BoardPass<Mmt>,
) -> Result<TurnEnd, Memory>
    requires front { IsAtFront hall.now.board.now pass.old }
    ensures keeps { Keeps pass.old pass.new }
    ensures stays { Stays pass.old.seen pass.new.seen }
    ensures ends { IfOk result (λ end. IsTurn modules pass.old.seen pass.old.number (read_end end) pass.new.seen) }
    ensures wants { OnErr result (TurnFindsNoMemory modules pass.old.seen pass.old.number pass.new.seen) }
{
    if hall.board.all_work() {
        hall.board.rest(hall.rt);
    }
    counted_turn::<R, G, Brand>(hall, pass, Blank::new(1))
}

/// A turn that is counted on a ledger.
fn counted_turn<R: Wait, G: Gate, L: Ledger>(
    hall: &Hall<'_, R, Mmt, G>,
    pass: &mut BoardPass<Mmt>,
    blank: Blank,
) -> Result<TurnEnd, Memory>
    requires front { IsAtFront hall.now.board.now pass.old }
    requires name { blank.name ≡ L.name }
    requires parts { blank.parts ≡ L.parts }
    requires some { 0 < blank.parts }
    ensures keeps { Keeps pass.old pass.new }
    ensures ends { IfOk result (λ end. IsTurn modules pass.old.seen pass.old.number (read_end end) pass.new.seen) }
    ensures wants { OnErr result (TurnFindsNoMemory modules pass.old.seen pass.old.number pass.new.seen) }
{
    let mut steps = Steps::<L>::new(blank);
    turn(
        hall.rt,
        hall.alloc,
        hall.board,
        hall.subject,
        pass,
        hall.gate,
        &mut steps,
    )
}
