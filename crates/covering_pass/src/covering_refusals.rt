//! Refusals of the second pass.
ghost use Rattle.std.specs.Prelude.{◌≡◌, ◌∷◌, [], ⊤, IfOk};
ghost use Rattle.elaborate_meaning.specs.Rules as rules;
ghost use Rattle.link_meaning.specs.Refusals.{refused};
ghost use Rattle.mmt_syntax.specs.Readings.{read_span};
ghost use Rattle.link_setting.specs.Readings.{read_setting};
ghost use Rattle.link_setting.specs.Answers.{IsFirstRefusal};

use lf_terms::{Memory, Name, Path, Span};
use link_setting::{LinkFault, Setting};
use mmt_interface::{Refusal, Rule};
use std::alloc::Global;

/// The theory has no covering; refused at the link's own name.
pub(crate) fn not_covered(alloc: Global, setting: &Setting<'_>, theory: &Name) -> LinkFault
    ensures { IsFirstRefusal {B = ⊤} result (refused (read_setting setting.now).span rules.Rule.IncludeNotCovered (theory.now ∷ [])) }
{
    match path_of(alloc, theory) {
        Ok(label) => LinkFault::Broken(Refusal {
            span: setting.at.span,
            rule: Rule::IncludeNotCovered,
            label,
        }),
        Err(Memory) => LinkFault::Memory,
    }
}

/// A covering assignment disagrees with another covering; refused at its first word.
pub(crate) fn disagree(alloc: Global, setting: &Setting<'_>, first: Span) -> LinkFault
    ensures { IsFirstRefusal {B = ⊤} result (refused (read_span first) rules.Rule.MorphismsDisagree (read_setting setting.now).label) }
{
    match setting.at.path.copy(alloc) {
        Ok(label) => LinkFault::Broken(Refusal {
            span: first,
            rule: Rule::MorphismsDisagree,
            label,
        }),
        Err(Memory) => LinkFault::Memory,
    }
}

/// The path of one name.
fn path_of(alloc: Global, name: &Name) -> Result<Path, Memory>
    ensures { IfOk result (λ path. path ≡ name.now ∷ []) }
{
    Path::new(alloc, name.copy(alloc)?)
}
