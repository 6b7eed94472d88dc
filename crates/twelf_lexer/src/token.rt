//! Tokens.

use lf_terms::{Path, Span};

/// What a token is.
#[derive(Debug, Drop)]
pub enum TokenKind {
    /// `%` and a run of identifier bytes.
    Percent,
    /// What no token is: another `%`, a `"`, or a row with a reserved word among its runs.
    Stray,
    Assign,
    Colon,
    LParen,
    RParen,
    LBracket,
    RBracket,
    LBrace,
    RBrace,
    Dot,
    TypeWord,
    Arrow,
    BackArrow,
    Equal,
    Blank,
    /// Runs of identifier bytes that are joined by single dots.
    Ident(Path),
}

/// A token, where it stands.
#[derive(Debug, Drop)]
pub struct Token {
    pub span: Span,
    pub kind: TokenKind,
}
