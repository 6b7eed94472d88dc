//! Refusals, made of the tests that fail.
ghost use Rattle.mmt_interface.specs.ReadRules.{read_rule};
ghost use Rattle.mmt_syntax.specs.Readings.{read_span};
ghost use Rattle.module_verdicts.specs.Answers.{IsRefusalOf, IsLabelled};

use elaborate::ElabFault;
use lf_terms::{Path, Span};
use link_setting::LinkFault;
use mmt_interface::{Refusal, Rule};
use std::alloc::Global;

/// The refusal for this rule, which is broken at this part of the text, with a copy of this label; or want of memory.
pub fn refused(alloc: Global, span: Span, rule: Rule, label: &Path) -> LinkFault
    ensures { IsRefusalOf result (record { span = read_span span; rule = read_rule rule; label = label.now }) }
{
    match label.copy(alloc) {
        Ok(label) => LinkFault::Broken(Refusal { span, rule, label }),
        Err(_) => LinkFault::Memory,
    }
}

/// The fault of an expression, with the label of the declaration that it is in.
pub(crate) fn labelled(alloc: Global, fault: ElabFault, label: &Path) -> LinkFault
    ensures { IsLabelled fault label.now result }
{
    match fault {
        ElabFault::Broken { span, rule } => refused(alloc, span, rule, label),
        ElabFault::Memory => LinkFault::Memory,
    }
}
