//! The words of morphisms.
ghost use Rattle.std.specs.Prelude.{◌≡◌, ◌∷◌, ◌<◌, ◌≤◌, [], List, false, length, IfOk, OnOk};
ghost use Rattle.text_meaning.specs.Tokens.{DotSign};
ghost use Rattle.text_meaning.specs.Trees as trees;
ghost use Rattle.text_meaning.specs.Parsing.{State, Expect, MoreWords, answer_on, at_morph, is_refused};
ghost use Rattle.mmt_syntax.specs.Readings.{read_morph, read_written};
ghost use Rattle.twelf_expressions.specs.Left.{left};
ghost use Rattle.twelf_expressions.specs.Going.{Goes};

use lf_terms::Memory;
use mmt_syntax::{Morph, Words, Written};
use twelf_expressions::{ReadFault, Reader};
use twelf_lexer::Sign;

/// The words of a morphism, and the dot behind them.
pub(crate) fn morph(reader: &mut Reader) -> Result<Morph, ReadFault>
    ensures goes { (done : List trees.Written → State) → ((ws : List trees.Written) → is_refused (done ws) ≡ false) → Goes (answer_on (at_morph done) (left reader.old)) result (λ m. answer_on (done (read_morph m)) (left reader.new)) }
    ensures less { OnOk result (length (left reader.new) < length (left reader.old)) }
{
    let first = reader.path()?;
    let morph = words(reader, first)?;
    reader.expect(Sign::Dot)?;
    Ok(morph)
}

/// A word and those that follow it.
fn words(reader: &mut Reader, first: Written) -> Result<Morph, Memory>
    ensures goes { IfOk result (λ m. (done : List trees.Written → State) → answer_on (MoreWords (read_written first ∷ []) done) (left reader.old) ≡ answer_on (Expect DotSign (done (read_morph m))) (left reader.new)) }
    ensures less { OnOk result (length (left reader.new) ≤ length (left reader.old)) }
{
    let mut words = Words::new(reader.alloc);
    words.add(first)?;
    while reader.sees_path() {
        let word = reader.take_path()?;
        words.add(word)?;
    }
    Ok(Morph { words })
}
