//! The lexer: it reads a text once, from left to right.
ghost use Rattle.std.specs.Prelude.{◌≡◌, ◌≤◌, ◌^◌, ℕ, false, length, IfErr, IfOk};
ghost use Rattle.text_meaning.specs.Cut.{IsLexed, Lexed, Tokens};
ghost use Rattle.twelf_lexer.specs.Answers.{AnswersSo, IsCutOf, IsFaultOf};
ghost use Rattle.twelf_lexer.specs.Lexemes.{IsLexeme, is_last, lexeme_token};
ghost use Rattle.twelf_lexer.specs.Steps.{token_of, tokens_of};

use crate::{LexFault, Lexeme, NameTable, Sign, Token, TokenKind, TokenList, lexeme_at, path_of};
use lf_terms::Memory;
use std::alloc::Global;

/// The tokens of a text, and where its input ends: at its length, or at the mark that ends it.
#[derive(Debug, Drop)]
pub struct Cut {
    pub tokens: TokenList,
    pub end: u32,
}

/// The tokens of a text.
pub fn tokens(alloc: Global, text: &[u8]) -> Result<TokenList, LexFault>
    requires small { length text.now ≤ 2 ^ 26 }
    ensures ok { IfOk result (λ tokens. (end : ℕ) × IsLexed text.now (Tokens (tokens_of text.now tokens) end)) }
    ensures fault { IfErr result (λ fault. IsFaultOf text.now fault) }
    ensures only { (lexed : Lexed) → IsLexed text.now lexed → AnswersSo text.now lexed result }
{
    match lex(alloc, text) {
        Ok(cut) => Ok(cut.tokens),
        Err(fault) => Err(fault),
    }
}

/// The tokens of a text, and where its input ends.
pub fn lex(alloc: Global, text: &[u8]) -> Result<Cut, LexFault>
    requires small { length text.now ≤ 2 ^ 26 }
    ensures ok { IfOk result (λ cut. IsCutOf text.now cut) }
    ensures fault { IfErr result (λ fault. IsFaultOf text.now fault) }
{
    match str::from_utf8(text) {
        Ok(text) => lex_text(alloc, text),
        Err(error) => Err(LexFault::NotUtf8 {
            at: error.valid_up_to() as u32,
        }),
    }
}

/// The same of a text that is UTF-8.
fn lex_text(alloc: Global, text: &str) -> Result<Cut, LexFault>
    requires small { length text.now ≤ 2 ^ 26 }
    ensures ok { IfOk result (λ cut. IsCutOf text.now cut) }
    ensures fault { IfErr result (λ fault. IsFaultOf text.now fault) }
{
    let mut names = NameTable::new(alloc);
    let mut tokens = TokenList::new(alloc);
    let mut at = 0;
    'tokens: loop {
        let lexeme = lexeme_at(text, at);
        match lexeme.sign {
            Sign::End => {
                return Ok(Cut {
                    tokens,
                    end: lexeme.span.from,
                });
            }
            Sign::OpenComment => {
                return Err(LexFault::OpenComment {
                    at: lexeme.span.from,
                });
            }
            _ => {
                tokens.add(token(alloc, &mut names, text, lexeme)?)?;
                at = lexeme.span.to as usize;
            }
        }
    }
}

/// The token that stands in a text.
fn token(alloc: Global, names: &mut NameTable, text: &str, lexeme: Lexeme) -> Result<Token, Memory>
    requires stands { IsLexeme text.now lexeme }
    requires more { is_last lexeme.sign ≡ false }
    ensures { IfOk result (λ token. token_of text.now token ≡ lexeme_token text.now lexeme) }
{
    let kind = match lexeme.sign {
        Sign::Percent(_) => TokenKind::Percent,
        Sign::Stray => TokenKind::Stray,
        Sign::Assign => TokenKind::Assign,
        Sign::Colon => TokenKind::Colon,
        Sign::LParen => TokenKind::LParen,
        Sign::RParen => TokenKind::RParen,
        Sign::LBracket => TokenKind::LBracket,
        Sign::RBracket => TokenKind::RBracket,
        Sign::LBrace => TokenKind::LBrace,
        Sign::RBrace => TokenKind::RBrace,
        Sign::Dot => TokenKind::Dot,
        Sign::TypeWord => TokenKind::TypeWord,
        Sign::Arrow => TokenKind::Arrow,
        Sign::BackArrow => TokenKind::BackArrow,
        Sign::Equal => TokenKind::Equal,
        Sign::Blank => TokenKind::Blank,
        _ => TokenKind::Ident(path_of(alloc, names, text, lexeme)?),
    };
    Ok(Token {
        span: lexeme.span,
        kind,
    })
}
