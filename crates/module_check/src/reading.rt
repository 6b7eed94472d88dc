//! The texts of modules, read.
ghost use Rattle.std.specs.Prelude.{◌≡◌, ◌≤◌, ◌∷◌, [], length, IfOk};
ghost use Rattle.name_meaning.specs.Limits.{text_limit};
ghost use Rattle.text_meaning.specs.Reading.{ModuleText, ModuleTree, Read};
ghost use Rattle.text_meaning.specs.TextAnswers as texts;
ghost use Rattle.mmt_syntax.specs.Readings as syntax;
ghost use Rattle.mmt_interface.specs.ReadRules.{read_rule};
ghost use Rattle.twelf_expressions.specs.Going.{Goes};
ghost use Rattle.module_verdicts.specs.Answers.{IsRefusalOf};
ghost use Rattle.module_check.specs.Unread.{IsUnread};

use lf_terms::{Memory, Name, Path, Span};
use link_setting::LinkFault;
use mmt_interface::Rule;
use mmt_syntax::Module;
use module_verdicts::refused;
use std::alloc::Global;
use twelf_reader::{ReadFault, read_module};

/// The module that a text spells, or where reading stops.
pub(crate) fn read(alloc: Global, text: &[u8]) -> Result<Module, ReadFault>
    requires { length text.now ≤ text_limit }
    ensures { Goes (texts.read ModuleText text.now) result (λ m. Read (ModuleTree (syntax.read_module m))) }
{
    read_module(alloc, text)
}

/// The refusal of a text that does not read, where reading stops, with the name of the module as its label.
pub(crate) fn unread(alloc: Global, name: &Name, fault: ReadFault) -> LinkFault
    ensures { IsUnread name.now fault result }
{
    match fault {
        ReadFault::Syntax { at } => refused_at(alloc, name, Rule::Syntax, at),
        ReadFault::TooDeep { at } => refused_at(alloc, name, Rule::TooDeep, at),
        ReadFault::Unsupported { at } => refused_at(alloc, name, Rule::Unsupported, at),
        ReadFault::Memory => LinkFault::Memory,
    }
}

/// The refusal for this rule at a place, with the name of the module as its label.
pub(crate) fn refused_at(alloc: Global, name: &Name, rule: Rule, at: u32) -> LinkFault
    ensures { IsRefusalOf result (record { span = record { from = at; to = at }; rule = read_rule rule; label = name.now ∷ [] }) }
{
    match path_of(alloc, name) {
        Ok(label) => refused(alloc, Span { from: at, to: at }, rule, &label),
        Err(_) => LinkFault::Memory,
    }
}

/// The path of this one name.
fn path_of(alloc: Global, name: &Name) -> Result<Path, Memory>
    ensures { IfOk result (λ path. path ≡ name.now ∷ []) }
{
    Path::new(alloc, name.copy(alloc)?)
}
