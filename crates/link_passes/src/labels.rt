//! Refusals that are labelled by paths.
ghost use Rattle.link_meaning.specs.Assignments.{label_along};
ghost use Rattle.link_meaning.specs.Refusals as refusals;
ghost use Rattle.mmt_syntax.specs.Readings.{read_span};
ghost use Rattle.mmt_interface.specs.ReadRules.{read_rule};
ghost use Rattle.link_setting.specs.Readings.{read_setting};
ghost use Rattle.link_setting.specs.Answers.{Links};
ghost use Rattle.link_passes.specs.Answers.{Refuses};

use lf_terms::{Memory, Path, Span};
use link_setting::{LinkFault, Setting, label_along};
use mmt_interface::{Refusal, Rule};
use std::alloc::Global;

/// A rule that is broken at a place, with the label of an assignment of this link.
pub(crate) fn refused(
    alloc: Global,
    setting: &Setting<'_>,
    target: &Path,
    span: Span,
    rule: Rule,
) -> LinkFault
    ensures { Refuses result (read_span span) (read_rule rule) (label_along (read_setting setting.now) target.now) }
{
    match label_along(alloc, setting, target) {
        Ok(label) => LinkFault::Broken(Refusal { span, rule, label }),
        Err(_) => LinkFault::Memory,
    }
}

/// A test, with the refusal where it fails.
pub(crate) fn demand(
    alloc: Global,
    holds: bool,
    setting: &Setting<'_>,
    target: &Path,
    span: Span,
    rule: Rule,
) -> Result<(), LinkFault>
    ensures { Links (λ done. done) result (refusals.demand holds (read_span span) (read_rule rule) (label_along (read_setting setting.now) target.now)) }
{
    if holds {
        Ok(())
    } else {
        Err(refused(alloc, setting, target, span, rule))
    }
}
