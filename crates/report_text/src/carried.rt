//! The lines of carried judgements.
ghost use Rattle.std.specs.Prelude.{◌≡◌, IfOk};
ghost use Rattle.run_meaning.specs.Judging.{codomain_of, seen_along};
ghost use Rattle.printing_meaning.specs.CarriedLines.{carried_line, Carries, Ill, NoView};
ghost use Rattle.printing_meaning.specs.Constants.{Seen};
ghost use Rattle.judged_meaning.specs.Carrying.{Carriage};
ghost use Rattle.judged_meaning.specs.JudgingByRules.{printed_carriage};
ghost use Rattle.elaborate_meaning.specs.Rules.{word_of};
ghost use Rattle.term_trees.specs.Readings.{read_family, read_object};
ghost use Rattle.mmt_interface.specs.Carriages.{IsCarriage, IsCarryFault};
ghost use Rattle.mmt_interface.specs.ReadRules.{read_rule};
ghost use Rattle.mmt_interface.specs.Readings.{environment_of};
ghost use Rattle.report_text.specs.CarryLines.{HasLine};

use crate::seen::seen_from;
use crate::told::front;
use lf_terms::{Bytes, Memory, Name};
use mmt_interface::{Carried, CarryFault, Faces, Rule};
use std::alloc::Global;
use term_text::{family, number, object};

/// What carrying a judgement along a view comes to: `V @k carries M : A`, seen from the codomain of the accepted view; or
/// `V @k no-view`; or `V @k ill C RULE`, the column in the judgement's text being counted from 1.
pub fn carry_text(
    alloc: Global,
    faces: &Faces,
    view: &Name,
    version: u32,
    carried: &Result<Carried, CarryFault>,
) -> Result<Bytes, Memory>
    requires { HasLine (environment_of faces.now view.now) carried.now }
    ensures { (carriage : Carriage) → IsCarriage carried.now carriage → IfOk result (λ line. line ≡ carried_line view.now version (seen_along (environment_of faces.now) view.now) (printed_carriage carriage)) }
{
    match carried {
        Ok(carried) => carries_line(alloc, faces, view, version, carried),
        Err(fault) => not_carried(alloc, view, version, fault),
    }
}

/// `V @k carries M : A`.
fn carries_line(
    alloc: Global,
    faces: &Faces,
    view: &Name,
    version: u32,
    carried: &Carried,
) -> Result<Bytes, Memory>
    ensures { IfOk result (λ line. line ≡ carried_line view.now version (seen_along (environment_of faces.now) view.now) (Carries (read_object carried.now.obj) (read_family carried.now.fam))) }
{
    let seen = seen_from(alloc, faces, codomain(faces, view))?;
    let mut line = front(alloc, view, version)?;
    line.extend(b" carries ")?;
    object(alloc, &mut line, &seen, 0, &carried.obj)?;
    line.extend(b" : ")?;
    family(alloc, &mut line, &seen, 0, &carried.fam)?;
    line.extend(b"\n")?;
    Ok(line)
}

/// The codomain of an accepted view, and of another module that module itself.
fn codomain<'a>(faces: &'a Faces, name: &'a Name) -> &'a Name
    ensures { result.now ≡ codomain_of name.now (environment_of faces.now name.now) }
{
    match faces.view(name) {
        Some(face) => &face.codomain,
        None => name,
    }
}

/// The line of a judgement that is not carried. No codomain is seen in it.
fn not_carried(
    alloc: Global,
    view: &Name,
    version: u32,
    fault: &CarryFault,
) -> Result<Bytes, Memory>
    ensures { (codomain : Seen) (carriage : Carriage) → IsCarryFault fault.now carriage → IfOk result (λ line. line ≡ carried_line view.now version codomain (printed_carriage carriage)) }
{
    match fault {
        CarryFault::NoView => no_view_line(alloc, view, version),
        CarryFault::Ill { span, rule } => ill_line(alloc, view, version, span.from, *rule),
        CarryFault::Memory => Err(Memory),
    }
}

/// `V @k no-view`.
fn no_view_line(alloc: Global, view: &Name, version: u32) -> Result<Bytes, Memory>
    ensures { (codomain : Seen) → IfOk result (λ line. line ≡ carried_line view.now version codomain NoView) }
{
    let mut line = front(alloc, view, version)?;
    line.extend(b" no-view")?;
    line.extend(b"\n")?;
    Ok(line)
}

/// `V @k ill C RULE`, where the place is counted from 0 and the column from 1.
fn ill_line(alloc: Global, view: &Name, version: u32, at: u32, rule: Rule) -> Result<Bytes, Memory>
    ensures { (codomain : Seen) → IfOk result (λ line. line ≡ carried_line view.now version codomain (Ill at (word_of (read_rule rule)))) }
{
    let mut line = front(alloc, view, version)?;
    line.extend(b" ill ")?;
    number(alloc, &mut line, at as u64 + 1)?;
    line.extend(b" ")?;
    line.extend(rule.word().as_bytes())?;
    line.extend(b"\n")?;
    Ok(line)
}
