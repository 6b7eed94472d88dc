//! The edits of the generator are made.
ghost use Rattle.std.specs.Prelude.{◌≡◌, ◌≤◌, ◌<◌, ◌+◌, ℕ, [], OnErr, OnOk};
ghost use Rattle.board_meaning.specs.Events.{log_of};
ghost use Rattle.board_meaning.specs.Legal.{IsLegal};
ghost use Rattle.text_meaning.specs.Dependencies.{dependencies};
ghost use Rattle.board_seats.specs.Seats.{Keeps};
ghost use Rattle.board_front.specs.Staying.{GoesOn, IsAtFront, IsFront};
ghost use Rattle.script_reader.specs.Generating.{gave_one};
ghost use Rattle.generator_front.specs.Generated.{HasBegun, IsBegun, IsLogOfGiven, IsSettled};

use crate::settle::settle;
use board_front::{Hall, Mmt, make_edit};
use board_seats::BoardPass;
use edit_log::Log;
use lf_terms::Memory;
use mmt_outside::Gate;
use script_reader::Gen;
use std::sync::Wait;

/// Makes the generator's next edit on the board, and on the log what the board made.
pub(crate) fn make_next<R: Wait, G>(
    hall: &Hall<'_, R, Mmt, G>,
    pass: &mut BoardPass<Mmt>,
    log: &mut Log,
    generator: &mut Gen,
) -> Result<(), Memory>
    requires at_front { IsAtFront hall.now.board.now pass.old }
    requires front { IsFront log.old pass.old.seen }
    requires room { generator.old.given < generator.old.modules + 1000 }
    requires given { IsLogOfGiven generator.old log.old }
    ensures keeps { Keeps pass.old pass.new }
    ensures legal { IsLegal dependencies pass.new.seen }
    ensures goes_on { OnOk result (GoesOn log.new pass.old.seen pass.new.seen) }
    ensures gave { OnOk result (generator.new ≡ gave_one generator.old) }
    ensures given { OnOk result (IsLogOfGiven generator.new log.new) }
    ensures begun { OnErr result (HasBegun generator.old (log_of pass.new.seen)) }
{
    let edit = generator.next_edit(hall.alloc)?;
    make_edit(hall, pass, log, edit)?;
    Ok(())
}

/// Puts the modules of the library, one after another.
pub(crate) fn put_modules<R: Wait, G>(
    hall: &Hall<'_, R, Mmt, G>,
    pass: &mut BoardPass<Mmt>,
    log: &mut Log,
    generator: &mut Gen,
    modules: u32,
) -> Result<(), Memory>
    requires at_front { IsAtFront hall.now.board.now pass.old }
    requires empty { pass.old.seen ≡ [] }
    requires log { log.old ≡ [] }
    requires generator { generator.old ≡ record { start = generator.old.start; modules = modules; given = 0 } }
    ensures keeps { Keeps pass.old pass.new }
    ensures legal { IsLegal dependencies pass.new.seen }
    ensures front { OnOk result (IsFront log.new pass.new.seen) }
    ensures gave { OnOk result (generator.new ≡ record { start = generator.old.start; modules = modules; given = modules }) }
    ensures given { OnOk result (IsLogOfGiven generator.new log.new) }
    ensures begun { OnErr result ((edits : ℕ) → IsBegun generator.old.start modules edits (log_of pass.new.seen)) }
{
    for _ in 0..modules {
        make_next(hall, pass, log, generator)?;
    }
    Ok(())
}

/// Makes so many later edits. Behind each, every module is brought to a verdict.
pub(crate) fn edit_modules<R: Wait, G: Gate>(
    hall: &Hall<'_, R, Mmt, G>,
    pass: &mut BoardPass<Mmt>,
    log: &mut Log,
    generator: &mut Gen,
    edits: u32,
) -> Result<(), Memory>
    requires at_front { IsAtFront hall.now.board.now pass.old }
    requires front { IsFront log.old pass.old.seen }
    requires few { edits ≤ 1000 }
    requires gave { generator.old.given ≡ generator.old.modules }
    requires given { IsLogOfGiven generator.old log.old }
    requires settled { IsSettled generator.old.start generator.old.modules 0 pass.old.seen }
    ensures keeps { Keeps pass.old pass.new }
    ensures legal { IsLegal dependencies pass.new.seen }
    ensures front { OnOk result (IsFront log.new pass.new.seen) }
    ensures settled { OnOk result (IsSettled generator.old.start generator.old.modules edits pass.new.seen) }
    ensures begun { OnErr result (IsBegun generator.old.start generator.old.modules edits (log_of pass.new.seen)) }
{
    for _ in 0..edits {
        make_next(hall, pass, log, generator)?;
        settle(hall, pass, log)?;
    }
    Ok(())
}
