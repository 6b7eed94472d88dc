//! Verdicts over faces.
ghost use Rattle.std.specs.Prelude.{◌≡◌, ◌≤◌, Bool, None, false, length, IfOk};
ghost use Rattle.name_meaning.specs.Limits.{text_limit};
ghost use Rattle.name_meaning.specs.Names.{Name as BytesOfName};
ghost use Rattle.name_meaning.specs.Rows.{row_of};
ghost use Rattle.text_meaning.specs.Reading.{ModuleText};
ghost use Rattle.text_meaning.specs.TextAnswers as texts;
ghost use Rattle.link_meaning.specs.Refusals.{Outcome};
ghost use Rattle.verdict_meaning.specs.Verdicts as meaning;
ghost use Rattle.mmt_interface.specs.CoherentFaces.{AreCoherent};
ghost use Rattle.mmt_interface.specs.Readings.{environment_of, read_interface, read_verdict};
ghost use Rattle.link_setting.specs.Answers.{Links};

use crate::reading::{read, unread};
use lf_terms::{Arc, Memory, Name};
use link_setting::LinkFault;
use mmt_interface::{Faces, Interface, Verdict};
use module_verdicts::tested;
use std::alloc::Global;

/// The verdict on a text that is put under this name and is grounded, over coherent faces, which do not have the name.
pub(crate) fn verdict(
    alloc: Global,
    faces: &Faces,
    name: &Name,
    text: &[u8],
) -> Result<Verdict, Memory>
    requires coherent { AreCoherent faces.now }
    requires absent { row_of faces.now name.now ≡ None }
    requires short { length text.now ≤ text_limit }
    ensures { IfOk result (λ verdict. (ungrounded : BytesOfName → Bool) → ungrounded name.now ≡ false → read_verdict verdict ≡ meaning.judge (environment_of faces.now) ungrounded name.now text.now) }
{
    verdict_by(alloc, interface(alloc, faces, name, text))
}

/// The interface of the module, or why it is refused.
fn interface(alloc: Global, faces: &Faces, name: &Name, text: &[u8]) -> Result<Interface, LinkFault>
    requires coherent { AreCoherent faces.now }
    requires absent { row_of faces.now name.now ≡ None }
    requires short { length text.now ≤ text_limit }
    ensures { Links read_interface result (meaning.judge_answer (environment_of faces.now) (λ other. false) name.now (texts.read ModuleText text.now)) }
{
    match read(alloc, text) {
        Ok(module) => tested(alloc, faces, name, &module),
        Err(fault) => Err(unread(alloc, name, fault)),
    }
}

/// The verdict of an outcome.
pub(crate) fn verdict_by(
    alloc: Global,
    outcome: Result<Interface, LinkFault>,
) -> Result<Verdict, Memory>
    ensures { IfOk result (λ verdict. (answer : Outcome meaning.Interface) → Links read_interface outcome answer → read_verdict verdict ≡ meaning.verdict_by answer) }
{
    match outcome {
        Ok(interface) => Ok(Verdict::Accepted(Arc::new(alloc, interface)?)),
        Err(LinkFault::Broken(refusal)) => Ok(Verdict::Refused(Arc::new(alloc, refusal)?)),
        Err(LinkFault::Memory) => Err(Memory),
    }
}
