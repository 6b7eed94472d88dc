//! Answers of modules, by place.
ghost use Rattle.std.specs.Prelude.{◌≡◌, ◌∷◌, ◌++◌, [], OnOk};
ghost use Rattle.name_meaning.specs.Rows.{IsTable};

use lf_terms::{Name, NameFault};
use module_graph::Answers;
use std::alloc::Global;

/// Adds an answer under a name that is above the others.
fn add(answers: &mut Answers<usize>, name: Name, answer: Option<usize>) -> Result<(), NameFault>
    requires { IsTable (answers.old ++ (name, answer) ∷ []) }
    ensures { OnOk result (answers.new ≡ answers.old ++ (name, answer) ∷ []) }
{
    match answers.push(name, answer) {
        Ok(()) => Ok(()),
        Err(back) => {
            drop(back);
            Err(NameFault::Memory)
        }
    }
}

/// Adds the answers 7 of A and 0 of C, and B, which is absent.
fn add_three(alloc: Global, answers: &mut Answers<usize>) -> Result<(), NameFault>
    requires empty { answers.old ≡ [] }
{
    add(answers, Name::new(alloc, "A")?, Some(7))?;
    add(answers, Name::new(alloc, "B")?, None)?;
    add(answers, Name::new(alloc, "C")?, Some(0))?;
    Ok(())
}

/// Whether this name with this answer is at a place.
fn is_at(answers: &Answers<usize>, place: usize, name: &str, answer: Option<usize>) -> bool {
    match answers.at(place) {
        Some((found, value)) => found.as_str() == name && value.copied() == answer,
        None => false,
    }
}

/// Whether answers of modules that are present, of one that is absent, and none past the end are at their places.
pub(crate) fn are_at_their_places(alloc: Global) -> bool {
    let mut answers = Answers::new(alloc);
    add_three(alloc, &mut answers).is_ok() && are_three(&answers)
}

fn are_three(answers: &Answers<usize>) -> bool {
    let ends = answers.len() == 3 && answers.at(3).is_none();
    let first = is_at(answers, 0, "A", Some(7));
    ends && first && is_at(answers, 1, "B", None) && is_at(answers, 2, "C", Some(0))
}
