//! Refusals of links and of their assignments.
ghost use Rattle.std.specs.Prelude.{◌≡◌, IfOk};
ghost use Rattle.std.specs.Option.{option_copied};
ghost use Rattle.link_meaning.specs.Assignments as passes;
ghost use Rattle.link_meaning.specs.Refusals as refusals;
ghost use Rattle.mmt_syntax.specs.Readings.{read_span};
ghost use Rattle.mmt_interface.specs.ReadRules.{read_rule};
ghost use Rattle.link_setting.specs.Readings.{read_setting};
ghost use Rattle.link_setting.specs.Answers.{Links};
ghost use Rattle.link_setting.specs.Labels.{IsRefused, label_of};

use crate::{LinkFault, Setting};
use lf_terms::{Memory, Path, Span};
use mmt_interface::{Refusal, Rule};
use std::alloc::Global;

/// The label of an assignment to a path: the path, behind the name of the structure if the link is one.
pub fn label_along(alloc: Global, setting: &Setting<'_>, path: &Path) -> Result<Path, Memory>
    ensures { IfOk result (λ label. label ≡ passes.label_along (read_setting setting.now) path.now) }
{
    match setting.structure {
        Some(structure) => Path::of(alloc, structure, path.as_slice()),
        None => path.copy(alloc),
    }
}

/// The label of an assignment to a path; without one, the link's own.
fn label(alloc: Global, setting: &Setting<'_>, target: Option<&Path>) -> Result<Path, Memory>
    ensures { IfOk result (λ label. label ≡ label_of (read_setting setting.now) (option_copied target.entry)) }
{
    match target {
        Some(path) => label_along(alloc, setting, path),
        None => setting.at.path.copy(alloc),
    }
}

/// A rule that is broken at a part of the text, by the assignment to a path, or by the link itself.
pub fn broken(
    alloc: Global,
    setting: &Setting<'_>,
    span: Span,
    rule: Rule,
    target: Option<&Path>,
) -> LinkFault
    ensures { IsRefused result (read_span span) (read_rule rule) (label_of (read_setting setting.now) (option_copied target.entry)) }
{
    match label(alloc, setting, target) {
        Ok(label) => LinkFault::Broken(Refusal { span, rule, label }),
        Err(Memory) => LinkFault::Memory,
    }
}

/// Refuses the assignment to a path, unless the test holds.
pub fn demand(
    alloc: Global,
    setting: &Setting<'_>,
    holds: bool,
    span: Span,
    rule: Rule,
    target: Option<&Path>,
) -> Result<(), LinkFault>
    ensures { Links (λ _. tt) result (refusals.demand holds (read_span span) (read_rule rule) (label_of (read_setting setting.now) (option_copied target.entry))) }
{
    if holds {
        Ok(())
    } else {
        Err(broken(alloc, setting, span, rule, target))
    }
}
