//! The verdict on a module, from its text and the verdicts of what it reaches.
ghost use Rattle.std.specs.Prelude.{◌≡◌, ◌≤◌, ◌+◌, Some, length, IfOk, OnErr, OnOk};
ghost use Rattle.name_meaning.specs.Limits.{text_limit};
ghost use Rattle.edit_log_meaning.specs.Log.{Library};
ghost use Rattle.verdict_meaning.specs.Rounds.{modules, verdict_of};
ghost use Rattle.mmt_interface.specs.Readings.{read_verdict};
ghost use Rattle.module_graph.specs.Subjects.{IsGiven, read_answers};
ghost use Rattle.module_check.specs.TypedVerdicts.{IsTypedVerdict};

use crate::answered::faces_of;
use crate::verdicts::verdict;
use lf_terms::{Memory, Name, Steps};
use mmt_interface::Verdict;
use module_graph::Answers;
use std::alloc::Global;
use std::sync::ledger::Ledger;

/// The verdict on a module with this name and text, of at most 2^20 bytes, in every library in which it is grounded and these
/// are the verdicts of what it reaches, the name itself left out; None stands for an absent module. There is such a library. It
/// counts one step where it answers. What it accepts is well typed in each such library: a theory flattens to a well-typed
/// signature, to which each of its structures carries typing, and a view carries typing from its domain to its codomain.
pub fn judge<L: Ledger>(
    alloc: Global,
    name: &Name,
    text: &[u8],
    answers: &Answers<Verdict>,
    steps: &mut Steps<L>,
) -> Result<Verdict, Memory>
    requires short { length text.now ≤ text_limit }
    requires given { (library : Library) × IsGiven modules name.now text.now (read_answers read_verdict answers.now) library }
    ensures answer { IfOk result (λ verdict. (library : Library) → IsGiven modules name.now text.now (read_answers read_verdict answers.now) library → verdict_of library name.now ≡ Some (read_verdict verdict)) }
    ensures tick { OnOk result (steps.new ≡ steps.old + 1) }
    ensures no_tick { OnErr result (steps.new ≡ steps.old) }
    ensures typed { IfOk result (λ verdict. (library : Library) → IsGiven modules name.now text.now (read_answers read_verdict answers.now) library → IsTypedVerdict library (read_verdict verdict)) }
{
    let verdict = judged(alloc, name, text, answers)?;
    steps.tick();
    Ok(verdict)
}

/// The same, without a step.
pub(crate) fn judged(
    alloc: Global,
    name: &Name,
    text: &[u8],
    answers: &Answers<Verdict>,
) -> Result<Verdict, Memory>
    requires short { length text.now ≤ text_limit }
    requires given { (library : Library) × IsGiven modules name.now text.now (read_answers read_verdict answers.now) library }
    ensures { IfOk result (λ verdict. (library : Library) → IsGiven modules name.now text.now (read_answers read_verdict answers.now) library → verdict_of library name.now ≡ Some (read_verdict verdict)) }
{
    let faces = faces_of(alloc, answers)?;
    verdict(alloc, &faces, name, text)
}
