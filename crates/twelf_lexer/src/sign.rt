//! What stands at a place of a text.

use lf_terms::Span;

/// The run behind `%`, as far as a text of modules has it.
#[derive(Clone, Copy, Debug, PartialEq, Eq)]
pub enum PercentWord {
    Sig,
    View,
    Include,
    Struct,
    /// Any other.
    Other,
}

/// What a token is, but for the names of an identifier; or where the tokens end.
#[derive(Clone, Copy, Debug, PartialEq, Eq)]
pub enum Sign {
    /// `%` and a run.
    Percent(PercentWord),
    Stray,
    Assign,
    Colon,
    LParen,
    RParen,
    LBracket,
    RBracket,
    LBrace,
    RBrace,
    Dot,
    TypeWord,
    Arrow,
    BackArrow,
    Equal,
    Blank,
    /// An identifier of one name.
    Name,
    /// An identifier of several names.
    Path,
    /// The end of the input: that of the text, or the mark that ends it.
    End,
    /// An outermost comment without an end.
    OpenComment,
}

/// What stands at a place of a text, and its bytes. An end has none; its span is where it stands.
#[derive(Clone, Copy, Debug)]
pub struct Lexeme {
    pub sign: Sign,
    pub span: Span,
}
