//! The front of the generator.
ghost use Rattle.std.specs.Prelude.{◌≡◌, ◌≤◌, ◌<◌, ◌^◌, []};
ghost use Rattle.board_meaning.specs.Legal.{IsLegal};
ghost use Rattle.text_meaning.specs.Dependencies.{dependencies};
ghost use Rattle.board_seats.specs.Seats.{Keeps};
ghost use Rattle.board_front.specs.Staying.{IsAtFront};
ghost use Rattle.generator_front.specs.Generated.{Ends, IsGenerated};

use crate::counts::Counts;
use crate::edits::{edit_modules, put_modules};
use crate::settle::settle;
use crate::verdicts::verdicts;
use board_front::{Hall, Mmt, close};
use board_seats::BoardPass;
use edit_log::Log;
use lf_terms::Memory;
use mmt_outside::Gate;
use script_reader::Gen;
use std::sync::Wait;

/// Makes the edits of the generator on a board that has no entries: first it puts each module, and every module is brought to a
/// verdict; and then again behind each later edit. The modules of the last library are counted.
fn generate<R: Wait, G: Gate>(
    hall: &Hall<'_, R, Mmt, G>,
    pass: &mut BoardPass<Mmt>,
    start: u32,
    modules: u32,
    edits: u32,
) -> Result<Counts, Memory>
    requires at_front { IsAtFront hall.now.board.now pass.old }
    requires empty { pass.old.seen ≡ [] }
    requires some { 1 ≤ modules }
    requires few { modules ≤ 1000 }
    requires few_edits { edits ≤ 1000 }
    ensures keeps { Keeps pass.old pass.new }
    ensures legal { IsLegal dependencies pass.new.seen }
    ensures ends { Ends start modules edits result pass.new.seen }
{
    let mut log = Log::new(hall.alloc);
    let mut generator = Gen::new(start, modules);
    put_modules(hall, pass, &mut log, &mut generator, modules)?;
    settle(hall, pass, &log)?;
    edit_modules(hall, pass, &mut log, &mut generator, edits)?;
    verdicts(hall, pass, &log)
}

/// Makes the edits of the generator on a board that has no entries, and closes the board. First it puts each module in order, and
/// brings every module to a verdict; then it makes each later edit, and behind each brings every module to a verdict. It answers what
/// it counts of the last library. A library has 1 to 1,000 modules and at most 1,000 later edits, and the number that it starts from
/// is below 2^31.
#[tactic(auto, using(crate::proofs::LaterHistories::closed_led))]
pub fn lead_generator<R: Wait, G: Gate>(
    hall: &Hall<'_, R, Mmt, G>,
    pass: &mut BoardPass<Mmt>,
    start: u32,
    modules: u32,
    edits: u32,
) -> Result<Counts, Memory>
    requires at_front { IsAtFront hall.now.board.now pass.old }
    requires empty { pass.old.seen ≡ [] }
    requires start { start < 2 ^ 31 }
    requires some { 1 ≤ modules }
    requires few { modules ≤ 1000 }
    requires few_edits { edits ≤ 1000 }
    ensures keeps { Keeps pass.old pass.new }
    ensures led { IsGenerated start modules edits result pass.new.seen }
{
    let counts = generate(hall, pass, start, modules, edits);
    close(hall, pass);
    counts
}
