//! The direct dependencies of modules.
ghost use Rattle.std.specs.Prelude.{◌≡◌, ◌≤◌, length, IfOk};
ghost use Rattle.name_meaning.specs.Limits.{text_limit};
ghost use Rattle.text_meaning.specs.Dependencies as meaning;
ghost use Rattle.text_meaning.specs.Reading.{Answer};
ghost use Rattle.twelf_expressions.specs.Going.{Fails};
ghost use Rattle.twelf_reader.specs.Dependencies.{names_in};

use lf_terms::{Memory, Name, Names};
use std::alloc::Global;
use twelf_reader::{ReadFault, read_dependencies};

/// The names on which a text depends, in the order of the text, with repeats. A text that does not read has none.
pub(crate) fn dependencies(alloc: Global, name: &Name, text: &[u8]) -> Result<Names, Memory>
    requires { length text.now ≤ text_limit }
    ensures { IfOk result (λ names. names ≡ meaning.dependencies name.now text.now) }
{
    match read_dependencies(alloc, text) {
        Ok(names) => Ok(names),
        Err(fault) => no_names(alloc, fault),
    }
}

/// The names on which a text with this fault depends: none.
fn no_names(alloc: Global, fault: ReadFault) -> Result<Names, Memory>
    ensures { IfOk result (λ names. (answer : Answer) → Fails fault answer → names ≡ names_in (meaning.answer_dependencies answer)) }
{
    match fault {
        ReadFault::Syntax { .. } => Ok(Names::new(alloc)),
        ReadFault::TooDeep { .. } => Ok(Names::new(alloc)),
        ReadFault::Unsupported { .. } => Ok(Names::new(alloc)),
        ReadFault::Memory => Err(Memory),
    }
}
