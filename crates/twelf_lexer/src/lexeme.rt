//! The next token of a text, which takes no memory.
ghost use Rattle.std.specs.Prelude.{◌≡◌, ◌≤◌, ◌<◌, ◌^◌, ℕ, drop, length, IsCharBoundary, MatchOption};
ghost use Rattle.text_meaning.specs.Cut.{Finished, Unclosed};
ghost use Rattle.text_meaning.specs.Cutting.{Between, cut_on};
ghost use Rattle.twelf_lexer.specs.Lexemes.{IsLexeme, cut_from, is_last};

use crate::step::{Piece, step_at};
use crate::{Lexeme, Sign};
use lf_terms::Span;

/// What stands next in a text of at most 2^26 bytes, from a place between two tokens on: a token, or an end.
pub fn lexeme_at(text: &str, at: usize) -> Lexeme
    requires small { length text.now ≤ 2 ^ 26 }
    requires within { at ≤ length text.now }
    requires boundary { IsCharBoundary text.now at }
    ensures stands { IsLexeme text.now result }
    ensures behind { at ≤ result.span.from }
    ensures cut { cut_on Between at (drop at text.now) ≡ cut_from text.now result }
{
    let mut from = at;
    while from < text.len() {
        let step = step_at(text.as_bytes(), from);
        let to = step.to;
        match step.piece {
            Piece::Nothing => {
                from = to;
                continue;
            }
            Piece::Token(sign) => return lexeme(sign, from, to),
            Piece::End => return lexeme(Sign::End, from, from),
            Piece::Open => return lexeme(Sign::OpenComment, from, from),
        }
    }
    lexeme(Sign::End, from, from)
}

fn lexeme(sign: Sign, from: usize, to: usize) -> Lexeme
    requires from { from < 2 ^ 32 }
    requires to { to < 2 ^ 32 }
    ensures { result ≡ record { sign = sign; span = record { from = from; to = to } } }
{
    Lexeme {
        sign,
        span: Span {
            from: from as u32,
            to: to as u32,
        },
    }
}

/// Where the outermost comment begins that has no end. None where all comments of the text end.
pub fn open_comment(text: &str) -> Option<u32>
    requires small { length text.now ≤ 2 ^ 26 }
    ensures { MatchOption result ((end : ℕ) × ((cut_on Between 0 text.now).ending ≡ Finished end)) (λ at. (cut_on Between 0 text.now).ending ≡ Unclosed at) }
{
    let mut lexeme = lexeme_at(text, 0);
    'tokens: loop {
        match lexeme.sign {
            Sign::End => return None,
            Sign::OpenComment => return Some(lexeme.span.from),
            _ => lexeme = lexeme_at(text, lexeme.span.to as usize),
        }
    }
}
