//! One step of the lexer.
ghost use Rattle.std.specs.Prelude.{◌≡◌, ◌+◌, ◌<◌, ◌==◌, drop, length, slice_index, IsUtf8, IsCharBoundary, IsTrue, MatchOption, None};
ghost use Rattle.name_meaning.specs.Characters as characters;
ghost use Rattle.text_meaning.specs.Bytes.{begins, left_brace};
ghost use Rattle.text_meaning.specs.Cut as cut;
ghost use Rattle.text_meaning.specs.Tokens.{percent_sign};
ghost use Rattle.twelf_lexer.specs.Lexemes.{IsBracket, word_mark};
ghost use Rattle.twelf_lexer.specs.Pieces.{IsStep};
ghost use Rattle.twelf_lexer.specs.declared.step.Piece.TheVariants as pieces;

use crate::comment::comment_end;
use crate::row::row_sign;
use crate::scan::{line_end, run_end, starts_run, starts_with};
use crate::{PercentWord, Sign};
use identifiers::{is_identifier_byte, is_white_space};

/// What stands at a place between tokens.
#[derive(Clone, Copy, Debug)]
pub(crate) enum Piece {
    /// White space or a comment.
    Nothing,
    Token(Sign),
    /// The mark that ends the input.
    End,
    /// A comment without an end.
    Open,
}

/// What stands at a place between tokens, and where it ends.
#[derive(Clone, Copy, Debug)]
pub(crate) struct Step {
    pub piece: Piece,
    pub to: usize,
}

/// What stands at a place between tokens of a text.
pub(crate) fn step_at(text: &[u8], at: usize) -> Step
    requires utf8 { IsUtf8 text.now }
    requires at { at < length text.now }
    requires boundary { IsCharBoundary text.now at }
    ensures { IsStep text.now at result }
{
    let byte = text[at];
    if is_identifier_byte(byte) {
        let (sign, to) = row_sign(text, at);
        return token(sign, to);
    }
    if is_white_space(byte) {
        return nothing(at + 1);
    }
    special_step(text, at)
}

fn nothing(to: usize) -> Step
    ensures { result ≡ record { piece = pieces.Nothing; to = to } }
{
    Step {
        piece: Piece::Nothing,
        to,
    }
}

fn token(sign: Sign, to: usize) -> Step
    ensures { result ≡ record { piece = pieces.Token sign; to = to } }
{
    Step {
        piece: Piece::Token(sign),
        to,
    }
}

/// At a special byte.
fn special_step(text: &[u8], at: usize) -> Step
    requires utf8 { IsUtf8 text.now }
    requires at { at < length text.now }
    requires special { IsTrue (characters.is_special (slice_index text.now at)) }
    ensures { IsStep text.now at result }
{
    let byte = text[at];
    if byte == b'%' {
        return percent_step(text, at);
    }
    if byte == b':' {
        return colon_step(text, at);
    }
    if byte == b'.' {
        return token(Sign::Dot, at + 1);
    }
    match bracket(byte) {
        Some(sign) => token(sign, at + 1),
        None => token(Sign::Stray, at + 1),
    }
}

/// The sign of a bracket. None for every other byte.
fn bracket(byte: u8) -> Option<Sign>
    ensures { MatchOption result (cut.bracket_sign byte ≡ None) (λ sign. IsBracket byte sign) }
{
    if byte == b'(' {
        return Some(Sign::LParen);
    }
    if byte == b')' {
        return Some(Sign::RParen);
    }
    if byte == b'[' {
        return Some(Sign::LBracket);
    }
    if byte == b']' {
        return Some(Sign::RBracket);
    }
    if byte == b'{' {
        return Some(Sign::LBrace);
    }
    if byte == b'}' {
        return Some(Sign::RBrace);
    }
    None
}

/// At a colon.
fn colon_step(text: &[u8], at: usize) -> Step
    requires utf8 { IsUtf8 text.now }
    requires at { at < length text.now }
    requires colon { slice_index text.now at ≡ 58 }
    ensures { IsStep text.now at result }
{
    let next = at + 1;
    if starts_with(text, next, b'=') {
        return token(Sign::Assign, next + 1);
    }
    token(Sign::Colon, next)
}

/// At a percent sign.
fn percent_step(text: &[u8], at: usize) -> Step
    requires utf8 { IsUtf8 text.now }
    requires at { at < length text.now }
    requires percent { slice_index text.now at ≡ 37 }
    ensures { IsStep text.now at result }
{
    let next = at + 1;
    if begins_line_comment(text, next) {
        return nothing(line_end(text, next));
    }
    if starts_with(text, next, b'{') {
        return comment_step(text, at);
    }
    if starts_with(text, next, b'.') {
        return Step {
            piece: Piece::End,
            to: at,
        };
    }
    if starts_run(text, next) {
        let to = run_end(text, next);
        return token(Sign::Percent(percent_word(&text[next..to])), to);
    }
    token(Sign::Stray, next)
}

/// Which percent word `%` and a run are.
fn percent_word(run: &[u8]) -> PercentWord
    ensures { word_mark result ≡ percent_sign run.now }
{
    if run == b"sig".as_slice() {
        return PercentWord::Sig;
    }
    if run == b"view".as_slice() {
        return PercentWord::View;
    }
    if run == b"include".as_slice() {
        return PercentWord::Include;
    }
    if run == b"struct".as_slice() {
        return PercentWord::Struct;
    }
    PercentWord::Other
}

/// Whether a comment up to the end of the line goes on behind its percent sign.
fn begins_line_comment(text: &[u8], at: usize) -> bool
    ensures { result ≡ cut.begins_line_comment (drop at text.now) }
{
    if at < text.len() {
        return is_white_space(text[at]) || text[at] == b'%';
    }
    true
}

/// At the two bytes that begin a comment.
fn comment_step(text: &[u8], at: usize) -> Step
    requires utf8 { IsUtf8 text.now }
    requires at { at < length text.now }
    requires percent { slice_index text.now at ≡ 37 }
    requires brace { IsTrue (begins (λ b. b == left_brace) (drop (at + 1) text.now)) }
    ensures { IsStep text.now at result }
{
    match comment_end(text, at + 2) {
        Some(to) => nothing(to),
        None => Step {
            piece: Piece::Open,
            to: at,
        },
    }
}
