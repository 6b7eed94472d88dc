//! Modules on cycles.
ghost use Rattle.std.specs.Prelude.{◌≡◌, ◌≤◌, Some, length, true, IfOk};
ghost use Rattle.name_meaning.specs.Limits.{text_limit};
ghost use Rattle.name_meaning.specs.Names.{is_among, is_ascending};
ghost use Rattle.edit_log_meaning.specs.Log.{Library};
ghost use Rattle.text_meaning.specs.Reading.{ModuleText};
ghost use Rattle.text_meaning.specs.TextAnswers as texts;
ghost use Rattle.library_meaning.specs.Faces.{IsAbsent};
ghost use Rattle.elaborate_meaning.specs.Rules as rules;
ghost use Rattle.text_meaning.specs.Dependencies.{module_dependencies};
ghost use Rattle.verdict_meaning.specs.Rounds.{modules, verdict_of};
ghost use Rattle.verdict_meaning.specs.Verdicts.{cycle_at, judge_answer};
ghost use Rattle.mmt_syntax.specs.Readings as syntax;
ghost use Rattle.mmt_interface.specs.Readings.{read_verdict};
ghost use Rattle.module_graph.specs.Subjects.{IsCyclic};
ghost use Rattle.link_setting.specs.Answers.{IsFirstRefusal};
ghost use Rattle.module_verdicts.specs.Answers.{IsRefusalOf};
ghost use Rattle.module_check.specs.Mentions.{first_among, read_mention};

use crate::mentions::{Mention, in_module};
use crate::reading::{read, refused_at, unread};
use crate::verdicts::verdict_by;
use lf_terms::{Memory, Name, Names, Path};
use link_setting::LinkFault;
use mmt_interface::{Rule, Verdict};
use mmt_syntax::Module;
use module_verdicts::refused;
use std::alloc::Global;

/// The verdict on an ungrounded module, from its text and the ungrounded names: where the text reads, a cycle at its first
/// dependency, in the order of the text, that is ungrounded itself.
pub(crate) fn cyclic(
    alloc: Global,
    name: &Name,
    text: &[u8],
    bad: &Names,
) -> Result<Verdict, Memory>
    requires short { length text.now ≤ text_limit }
    requires given { (library : Library) × IsCyclic modules name.now text.now bad.now library }
    ensures { IfOk result (λ verdict. (library : Library) → IsCyclic modules name.now text.now bad.now library → verdict_of library name.now ≡ Some (read_verdict verdict)) }
{
    let fault = refusal(alloc, name, text, bad);
    verdict_by(alloc, Err(fault))
}

/// Why a module is refused that is one of the ungrounded names.
fn refusal(alloc: Global, name: &Name, text: &[u8], bad: &Names) -> LinkFault
    requires short { length text.now ≤ text_limit }
    requires ascending { is_ascending bad.now ≡ true }
    requires among { is_among bad.now name.now ≡ true }
    ensures { IsFirstRefusal result (judge_answer (λ other. IsAbsent) (is_among bad.now) name.now (texts.read ModuleText text.now)) }
{
    match read(alloc, text) {
        Ok(module) => cycle(alloc, name, bad, &module),
        Err(fault) => unread(alloc, name, fault),
    }
}

/// The refusal of a module that reads.
fn cycle(alloc: Global, name: &Name, bad: &Names, module: &Module) -> LinkFault
    requires { is_ascending bad.now ≡ true }
    ensures { IsFirstRefusal result (cycle_at name.now (first_among bad.now (module_dependencies (syntax.read_module «module».now)))) }
{
    match in_module(bad, module) {
        Some(found) => cycle_here(alloc, &found),
        None => refused_at(alloc, name, Rule::Cycle, 0),
    }
}

/// The refusal at a mention.
fn cycle_here(alloc: Global, found: &Mention<'_>) -> LinkFault
    ensures { IsRefusalOf result (record { span = (read_mention found.now).span; rule = rules.Rule.Cycle; label = (read_mention found.now).label }) }
{
    match label_of(alloc, found) {
        Ok(label) => refused(alloc, found.written.span, Rule::Cycle, &label),
        Err(_) => LinkFault::Memory,
    }
}

/// The label of a mention.
fn label_of(alloc: Global, found: &Mention<'_>) -> Result<Path, Memory>
    ensures { IfOk result (λ path. path ≡ (read_mention found.now).label) }
{
    match found.structure {
        Some(structure) => Path::of(alloc, structure, found.label.as_slice()),
        None => found.label.copy(alloc),
    }
}
