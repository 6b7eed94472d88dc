//! What a command prints, and what it does to the board.
ghost use Rattle.std.specs.Prelude.{IfSome};
ghost use Rattle.board_meaning.specs.Legal.{IsLegal};
ghost use Rattle.text_meaning.specs.Dependencies.{dependencies};
ghost use Rattle.board_seats.specs.Seats.{Keeps};
ghost use Rattle.board_front.specs.Staying.{IsAtFront, IsFront};
ghost use Rattle.script_reader.specs.Commands.{IsShort, read_command};
ghost use Rattle.mmt_top.specs.Answered.{Answers};

use board_front::{Hall, Mmt, carry_lines, check_lines, edit_lines, flat_lines, report_lines};
use board_seats::BoardPass;
use edit_log::{Edit, Log};
use lf_terms::{Arc, Bytes, Memory};
use mmt_outside::Gate;
use report_text::log_text;
use script_reader::Command;
use std::sync::Wait;

/// Plays a command on the board, and answers its lines. The log is the front's own: it has the edits of the board.
pub(crate) fn answer<R: Wait, G: Gate>(
    hall: &Hall<'_, R, Mmt, G>,
    pass: &mut BoardPass<Mmt>,
    log: &mut Log,
    command: Command,
) -> Result<Bytes, Memory>
    requires at_front { IsAtFront hall.now.board.now pass.old }
    requires front { IsFront log.old pass.old.seen }
    requires short { IsShort command }
    ensures keeps { Keeps pass.old pass.new }
    ensures legal { IsLegal dependencies pass.new.seen }
    ensures answers { IfSome (read_command command) (λ spoken. Answers spoken log.old log.new pass.old.seen pass.new.seen result) }
{
    match command {
        Command::Put { name, text } => {
            let text = Arc::new(hall.alloc, text)?;
            edit_lines(hall, pass, log, Edit::Put { name, text })
        }
        Command::Drop(name) => edit_lines(hall, pass, log, Edit::Drop { name }),
        Command::Report(name) => report_lines(hall, pass, log, &name),
        Command::Check => check_lines(hall, pass, log),
        Command::Flat(name) => flat_lines(hall, pass, log, &name),
        Command::Carry { view, text } => { carry_lines(hall, pass, log, &view, text.as_slice()) }
        Command::Log => log_text(hall.alloc, log),
        Command::Blank => Ok(Bytes::new(hall.alloc)),
        Command::End => Ok(Bytes::new(hall.alloc)),
    }
}
