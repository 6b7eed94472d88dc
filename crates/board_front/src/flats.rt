//! Flat texts of accepted modules, and judgements that are carried along views.
ghost use Rattle.std.specs.Prelude.{◌≡◌, ◌≤◌, [], Some, IfOk, OnOk, length, true};
ghost use Rattle.board_meaning.specs.Events.{library_after};
ghost use Rattle.board_meaning.specs.Legal.{IsLegal};
ghost use Rattle.board_meaning.specs.Standing.{stands};
ghost use Rattle.name_meaning.specs.Limits.{line_limit};
ghost use Rattle.run_meaning.specs.ScriptOutput as output;
ghost use Rattle.text_meaning.specs.Dependencies.{dependencies};
ghost use Rattle.module_graph_meaning.specs.Walks.{is_grounded};
ghost use Rattle.verdict_meaning.specs.Rounds.{verdict_of};
ghost use Rattle.mmt_interface.specs.Readings.{read_verdict};
ghost use Rattle.judged_meaning.specs.JudgingByRules.{rules};
ghost use Rattle.std.specs.Option.{option_copied};
ghost use Rattle.printing_meaning.specs.CarriedLines as lines;
ghost use Rattle.run_meaning.specs.Judging.{seen_along};
ghost use Rattle.judged_meaning.specs.Carrying as meaning;
ghost use Rattle.judged_meaning.specs.JudgingByRules.{printed_carriage};
ghost use Rattle.mmt_interface.specs.CoherentFaces.{AreCoherent};
ghost use Rattle.mmt_interface.specs.Readings.{environment_of};
ghost use Rattle.board_seats.specs.Seats.{Keeps};
ghost use Rattle.board_front.specs.Carries.{is_memory};
ghost use Rattle.board_front.specs.Faces.{AreFacesOf};
ghost use Rattle.board_front.specs.Told.{accepted_verdict};
ghost use Rattle.board_front.specs.Staying.{IsAtFront, IsFront, StandsIfGrounded, Stays};

use crate::calls::answers;
use crate::reports::line;
use crate::verdict::told;
use board_seats::BoardPass;
use edit_log::Log;
use lf_terms::{Bytes, Memory, Name};
use mmt_interface::{Carried, CarryFault, Faces, Verdict};
use mmt_outside::Gate;
use module_check::{Mmt, carry, faces_with};
use report_text::{carry_text, flat_text};
use std::alloc::Global;
use std::sync::Wait;
use verdict_board::Told;
use worker_loop::Hall;

/// The flat text of an accepted module, else its verdict line. The name is brought to a verdict.
pub fn flat_lines<R: Wait, G: Gate>(
    hall: &Hall<'_, R, Mmt, G>,
    pass: &mut BoardPass<Mmt>,
    log: &Log,
    name: &Name,
) -> Result<Bytes, Memory>
    requires at_front { IsAtFront hall.now.board.now pass.old }
    requires front { IsFront log.now pass.old.seen }
    ensures keeps { Keeps pass.old pass.new }
    ensures stays { Stays pass.old.seen pass.new.seen }
    ensures lines { IfOk result (λ lines. lines ≡ output.flat_text rules log.now name.now) }
    ensures stands { OnOk result (StandsIfGrounded pass.new.seen name.now) }
{
    let told = told(hall, pass, name)?;
    match accepted(&told) {
        Some(verdict) => {
            let faces = faces_of(hall, pass, name, verdict)?;
            flat_text(hall.alloc, &faces, name, log.version())
        }
        None => line(hall.alloc, log, name, &told),
    }
}

/// What a judgement comes to that is carried along a view. The view is brought to a verdict.
pub fn carry_lines<R: Wait, G: Gate>(
    hall: &Hall<'_, R, Mmt, G>,
    pass: &mut BoardPass<Mmt>,
    log: &Log,
    view: &Name,
    judgement: &[u8],
) -> Result<Bytes, Memory>
    requires at_front { IsAtFront hall.now.board.now pass.old }
    requires front { IsFront log.now pass.old.seen }
    requires short { length judgement.now ≤ line_limit }
    ensures keeps { Keeps pass.old pass.new }
    ensures stays { Stays pass.old.seen pass.new.seen }
    ensures line { IfOk result (λ line. line ≡ output.carry_text rules log.now view.now judgement.now) }
    ensures stands { OnOk result (StandsIfGrounded pass.new.seen view.now) }
{
    let told = told(hall, pass, view)?;
    match accepted(&told) {
        Some(verdict) => {
            let faces = faces_of(hall, pass, view, verdict)?;
            carried_line(hall.alloc, &faces, view, log.version(), judgement)
        }
        None => carried_nowhere(hall.alloc, view, log.version(), judgement),
    }
}

/// What a judgement comes to over these faces.
fn carried_line(
    alloc: Global,
    faces: &Faces,
    view: &Name,
    version: u32,
    judgement: &[u8],
) -> Result<Bytes, Memory>
    requires coherent { AreCoherent faces.now }
    requires short { length judgement.now ≤ line_limit }
    ensures { IfOk result (λ line. line ≡ lines.carried_line view.now version (seen_along (environment_of faces.now) view.now) (printed_carriage (meaning.carry (environment_of faces.now) view.now judgement.now))) }
{
    let carried = carry(alloc, faces, view, judgement);
    if lacks_memory(&carried) {
        return Err(Memory);
    }
    carry_text(alloc, faces, view, version, &carried)
}

/// What a judgement comes to along a name that is no accepted view.
fn carried_nowhere(
    alloc: Global,
    name: &Name,
    version: u32,
    judgement: &[u8],
) -> Result<Bytes, Memory>
    requires short { length judgement.now ≤ line_limit }
    ensures { IfOk result (λ line. line ≡ lines.carried_line name.now version (seen_along (environment_of []) name.now) (printed_carriage (meaning.carry (environment_of []) name.now judgement.now))) }
{
    let none = Faces::new(alloc);
    carried_line(alloc, &none, name, version, judgement)
}

/// Whether memory was wanting.
fn lacks_memory(carried: &Result<Carried, CarryFault>) -> bool
    ensures { result ≡ is_memory carried.now }
{
    match carried {
        Ok(_) => false,
        Err(fault) => match fault {
            CarryFault::NoView | CarryFault::Ill { .. } => false,
            CarryFault::Memory => true,
        },
    }
}

/// The verdict of an accepted module, if it is told.
fn accepted(told: &Told<Verdict>) -> Option<&Verdict>
    ensures { option_copied result ≡ accepted_verdict told.now }
{
    let Told::Verdict { answer, .. } = told else {
        return None;
    };
    match answer {
        Verdict::Accepted(_) => Some(answer),
        Verdict::Refused(_) => None,
    }
}

/// The verdicts of what a grounded module reaches whose verdict stands, itself included.
fn faces_of<R: Wait, G>(
    hall: &Hall<'_, R, Mmt, G>,
    pass: &mut BoardPass<Mmt>,
    name: &Name,
    verdict: &Verdict,
) -> Result<Faces, Memory>
    requires at_front { IsAtFront hall.now.board.now pass.old }
    requires legal { IsLegal dependencies pass.old.seen }
    requires grounded { is_grounded dependencies (library_after pass.old.seen) name.now ≡ true }
    requires standing { stands dependencies pass.old.seen name.now ≡ true }
    requires told { verdict_of (library_after pass.old.seen) name.now ≡ Some (read_verdict verdict.now) }
    ensures keeps { Keeps pass.old pass.new }
    ensures stays { Stays pass.old.seen pass.new.seen }
    ensures faces { IfOk result (AreFacesOf (library_after pass.old.seen) name.now verdict.now) }
{
    let Some(answers) = answers(hall, pass, name)? else {
        unreachable!();
    };
    faces_with(hall.alloc, &answers, name, verdict)
}
