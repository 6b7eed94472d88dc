//! Rows of runs: reserved words and identifiers.
ghost use Rattle.std.specs.Prelude.{◌≡◌, ◌≤◌, ◌<◌, false, ◌||◌, length, slice_index, drop, IsCharBoundary, IsTrue, MatchOption};
ghost use Rattle.name_meaning.specs.Characters as characters;
ghost use Rattle.name_meaning.specs.Identifiers as identifiers;
ghost use Rattle.twelf_lexer.specs.Lexemes.{IsReserved, IsToken};
ghost use Rattle.twelf_lexer.specs.Rows.{IsLongestRow, row_goes_on};

use crate::Sign;
use crate::scan::{run_end, starts_run, starts_with};

/// Where a row ends, whether it has several runs, and whether one of them is a reserved word.
#[derive(Clone, Copy, Debug)]
pub(crate) struct RowEnd {
    pub to: usize,
    pub several: bool,
    pub reserved: bool,
}

/// What the row of runs is that begins at a place between tokens, and where it ends.
pub(crate) fn row_sign(text: &[u8], at: usize) -> (Sign, usize)
    requires at { at < length text.now }
    requires boundary { IsCharBoundary text.now at }
    requires run { IsTrue (characters.is_identifier_byte (slice_index text.now at)) }
    ensures { IsToken text.now at result.1 result.0 }
{
    let row = row_end(text, at);
    if row.several {
        if row.reserved {
            return (Sign::Stray, row.to);
        }
        return (Sign::Path, row.to);
    }
    match reserved(&text[at..row.to]) {
        Some(sign) => (sign, row.to),
        None => (Sign::Name, row.to),
    }
}

/// The longest row from a place on.
fn row_end(text: &[u8], at: usize) -> RowEnd
    requires at { at < length text.now }
    requires run { IsTrue (characters.is_identifier_byte (slice_index text.now at)) }
    ensures { IsLongestRow text.now at result }
{
    let mut to = run_end(text, at);
    let mut several = false;
    let mut reserved = is_reserved(&text[at..to]);
    while goes_on(text, to) {
        let start = to + 1;
        to = run_end(text, start);
        several = true;
        reserved = either(reserved, is_reserved(&text[start..to]));
    }
    RowEnd {
        to,
        several,
        reserved,
    }
}

fn either(a: bool, b: bool) -> bool
    ensures { result ≡ (a || b) }
{
    a || b
}

/// Whether a row that stands before a place goes on there, by a dot and an identifier byte.
fn goes_on(text: &[u8], at: usize) -> bool
    requires { at ≤ length text.now }
    ensures { result ≡ row_goes_on (drop at text.now) }
{
    if starts_with(text, at, b'.') {
        return starts_run(text, at + 1);
    }
    false
}

/// Whether a run is a reserved word.
fn is_reserved(run: &[u8]) -> bool
    ensures { result ≡ identifiers.is_reserved run.now }
{
    matches!(run, b"type" | b"->" | b"<-" | b"=" | b"_")
}

/// The sign of a reserved word. None for every other run.
fn reserved(run: &[u8]) -> Option<Sign>
    ensures { MatchOption result (identifiers.is_reserved run.now ≡ false) (λ sign. IsReserved run.now sign) }
{
    match run {
        b"type" => Some(Sign::TypeWord),
        b"->" => Some(Sign::Arrow),
        b"<-" => Some(Sign::BackArrow),
        b"=" => Some(Sign::Equal),
        b"_" => Some(Sign::Blank),
        _ => None,
    }
}
