//! The names of identifiers.
ghost use Rattle.std.specs.Prelude.{◌≡◌, ◌≤◌, ◌<◌, ℕ, List, true, false, drop, length, IsCharBoundary, IfOk, IsTrue};
ghost use Rattle.std.specs.List.{list_any, slice_range};
ghost use Rattle.name_meaning.specs.Identifiers as identifiers;
ghost use Rattle.text_meaning.specs.Tokens.{Ident};
ghost use Rattle.text_meaning.specs.Cut.{ends_row};
ghost use Rattle.twelf_lexer.specs.Rows.{IsRow};
ghost use Rattle.twelf_lexer.specs.Lexemes.{IsLexeme, is_names, sign_kind};

use crate::scan::run_end;
use crate::{Lexeme, NameTable, Sign};
use lf_terms::{Memory, Name, Path};
use std::alloc::Global;

/// The path of the identifier that stands in a text, of names that the table shares.
pub fn path_of(
    alloc: Global,
    names: &mut NameTable,
    text: &str,
    lexeme: Lexeme,
) -> Result<Path, Memory>
    requires stands { IsLexeme text.now lexeme }
    requires identifier { is_names lexeme.sign ≡ true }
    ensures { IfOk result (λ path. sign_kind text.now lexeme.span.from lexeme.span.to lexeme.sign ≡ Ident path) }
{
    let from = lexeme.span.from as usize;
    let to = lexeme.span.to as usize;
    match lexeme.sign {
        Sign::Name => Path::new(alloc, name(names, text, from, to)?),
        Sign::Path => path(alloc, names, text, from, to),
        _ => unreachable!(),
    }
}

/// The path of a row without reserved words.
fn path(
    alloc: Global,
    names: &mut NameTable,
    text: &str,
    at: usize,
    to: usize,
) -> Result<Path, Memory>
    requires boundary { IsCharBoundary text.now at }
    requires row { (words : List (List ℕ)) × IsRow text.now at to words × (list_any identifiers.is_reserved words ≡ false) }
    requires ends { ends_row (drop to text.now) ≡ true }
    ensures row { IfOk result (λ path. IsRow text.now at to path) }
    ensures free { IfOk result (λ path. list_any identifiers.is_reserved path ≡ false) }
{
    let mut end = run_end(text.as_bytes(), at);
    let mut path = Vec::new(alloc);
    path.push(name(names, text, at, end)?)?;
    while end < to {
        let start = end + 1;
        end = run_end(text.as_bytes(), start);
        path.push(name(names, text, start, end)?)?;
    }
    of_names(alloc, path.as_slice())
}

/// The path of names, of which there is one at least.
fn of_names(alloc: Global, names: &[Name]) -> Result<Path, Memory>
    requires { 0 < length names.now }
    ensures { IfOk result (λ path. path ≡ names.now) }
{
    match names.split_first() {
        Some((first, more)) => Path::of(alloc, first, more),
        None => unreachable!(),
    }
}

/// The name of a run that is no reserved word.
fn name(names: &mut NameTable, text: &str, at: usize, to: usize) -> Result<Name, Memory>
    requires order { at ≤ to }
    requires start { IsCharBoundary text.now at }
    requires end { IsCharBoundary text.now to }
    requires identifier { IsTrue (identifiers.is_identifier (slice_range text.now at to)) }
    ensures { IfOk result (λ name. name ≡ slice_range text.now at to) }
{
    names.name(&text[at..to])
}
