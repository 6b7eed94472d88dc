//! The names that stand in words of morphisms.
ghost use Rattle.std.specs.Prelude.{◌≡◌, ◌∷◌, ◌++◌, ◌<◌, ◌≤◌, [], List, false, flat_map, length, OnOk};
ghost use Rattle.text_meaning.specs.Trees as trees;
ghost use Rattle.text_meaning.specs.Trees.{first_name};
ghost use Rattle.text_meaning.specs.Parsing.{MoreWords, State, answer_on, at_morph, is_refused};
ghost use Rattle.text_meaning.specs.Dependencies as meaning;
ghost use Rattle.mmt_syntax.specs.DependenciesLeft.{own_name};
ghost use Rattle.mmt_syntax.specs.Readings.{read_written};
ghost use Rattle.twelf_expressions.specs.Left.{left};
ghost use Rattle.twelf_expressions.specs.Outlines.{Passes};
ghost use Rattle.twelf_reader.specs.Dependencies.{Adds, names_in};

use lf_terms::{Memory, Name, Names};
use mmt_syntax::{Written, first_name};
use twelf_expressions::{ReadFault, Reader};
use twelf_lexer::Sign;

/// The words of a morphism, and the dot behind them. Words about a structure of the theory itself, which has this name,
/// are left out.
pub(crate) fn add_morph(
    reader: &mut Reader,
    own: Option<&Name>,
    names: &mut Names,
) -> Result<(), ReadFault>
    ensures goes { (done : List trees.Written → State) → ((ws : List trees.Written) → is_refused (done ws) ≡ false) → Passes (answer_on (at_morph done) (left reader.old)) result
        (λ _. Adds (answer_on (at_morph done) (left reader.old)) (λ ws. answer_on (done ws) (left reader.new)) (flat_map (meaning.word_dependencies (own_name own.entry) [])) names.old names.new) }
    ensures less { OnOk result (length (left reader.new) < length (left reader.old)) }
{
    let word = reader.path()?;
    add_word(reader, own, names, &word)?;
    add_words(reader, own, names)
}

/// The words that follow the first one, and the dot behind them.
fn add_words(reader: &mut Reader, own: Option<&Name>, names: &mut Names) -> Result<(), ReadFault>
    ensures goes { (done : List trees.Written → State) (first : List trees.Written) → ((ws : List trees.Written) → is_refused (done ws) ≡ false) → Passes (answer_on (MoreWords first done) (left reader.old)) result
        (λ _. Adds (answer_on (MoreWords first done) (left reader.old)) (λ ws. answer_on (done (first ++ ws)) (left reader.new)) (flat_map (meaning.word_dependencies (own_name own.entry) [])) names.old names.new) }
    ensures less { OnOk result (length (left reader.new) ≤ length (left reader.old)) }
{
    while reader.sees_path() {
        let word = reader.take_path()?;
        let added = add_word(reader, own, names, &word);
        drop(word);
        added?;
    }
    reader.expect(Sign::Dot)?;
    Ok(())
}

/// The name that a word begins with, unless the word is about a structure of the theory itself.
fn add_word(
    reader: &Reader,
    own: Option<&Name>,
    names: &mut Names,
    word: &Written,
) -> Result<(), Memory>
    ensures { OnOk result (names.new ≡ names.old ++ names_in (meaning.word_dependencies (own_name own.entry) [] (read_written word.now))) }
{
    if is_own_word(own, word) {
        return Ok(());
    }
    add_first(reader, names, word)
}

/// The name that a written path begins with.
pub(crate) fn add_first(reader: &Reader, names: &mut Names, word: &Written) -> Result<(), Memory>
    ensures { OnOk result (names.new ≡ names.old ++ first_name word.now.path ∷ []) }
{
    let name = first_name(word).copy(reader.alloc)?;
    names.add(name)
}

/// Whether a word is about a structure of the theory itself.
fn is_own_word(own: Option<&Name>, word: &Written) -> bool
    ensures { result ≡ meaning.is_own_word (own_name own.entry) (read_written word.now).path }
{
    match own {
        Some(own) => word.path.len() > 1 && *own == *first_name(word),
        None => false,
    }
}
