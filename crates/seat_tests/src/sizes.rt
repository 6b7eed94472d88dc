//! A small subject: modules whose answers are the sizes of their texts.
ghost use Rattle.std.specs.Prelude.{◌≡◌, ℕ, length};
ghost use Rattle.seat_tests.specs.Sizes.{sizes, sizes_lawful};

use lf_terms::{Memory, Name, Names, Steps};
use module_graph::{Answers, Subject};
use std::alloc::Global;
use std::sync::ledger::Ledger;

/// A module with an empty text depends on nothing, and any other on itself alone. Its answer is the size of its text.
#[derive(Drop)]
pub struct Sizes;

impl Subject for Sizes {
    type Answer = usize;

    ghost Meaning = { ℕ };

    ghost meaning = { λ size. size };

    ghost subject = { sizes };

    fn share(answer: &usize) -> Result<usize, Memory> {
        Ok(*answer)
    }

    fn deps(&self, alloc: Global, name: &Name, text: &[u8]) -> Result<Names, Memory> {
        let mut names = Names::new(alloc);
        if !text.is_empty() {
            match names.push(name.copy(alloc)?) {
                Ok(()) => {}
                Err(_) => return Err(Memory),
            }
        }
        Ok(names)
    }

    fn judge<L: Ledger>(
        &self,
        _alloc: Global,
        _name: &Name,
        text: &[u8],
        _answers: &Answers<usize>,
        steps: &mut Steps<L>,
    ) -> Result<usize, Memory> {
        steps.tick();
        Ok(text.len())
    }

    fn cyclic(
        &self,
        _alloc: Global,
        _name: &Name,
        text: &[u8],
        _bad: &Names,
    ) -> Result<usize, Memory> {
        Ok(text.len())
    }

    ghost lawful = { sizes_lawful };
}

/// Whether such a value and its answers may be dropped and cross threads.
fn crosses<S: Subject>(_subject: &S) {}

/// Whether the calls of the subject answer as it says.
pub(crate) fn is_a_subject(alloc: Global) -> bool {
    crosses(&Sizes);
    match Name::new(alloc, "A") {
        Ok(name) => depends_as_it_says(alloc, &name) && Sizes::share(&7) == Ok(7),
        Err(_) => false,
    }
}

/// Whether a text depends on the name alone, and an empty one on nothing.
fn depends_as_it_says(alloc: Global, name: &Name) -> bool {
    let own = Sizes.deps(alloc, name, b"abc");
    let none = Sizes.deps(alloc, name, b"");
    match (&own, &none) {
        (Ok(own), Ok(none)) => own.len() == 1 && own.get(0) == Some(name) && none.len() == 0,
        _ => false,
    }
}
