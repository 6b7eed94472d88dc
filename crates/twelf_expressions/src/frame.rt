//! What a reader of expressions has open.

ghost use Rattle.std.specs.Prelude.{◌≡◌, None, false, true};
ghost use Rattle.text_meaning.specs.Tokens.{EndSign, Mark};
ghost use Rattle.text_meaning.specs.Parsing.{right_sign, typed};
ghost use Rattle.mmt_syntax.specs.Readings.{read_binder, read_expr};
ghost use Rattle.twelf_lexer.specs.Lexemes.{mark_of};
ghost use Rattle.twelf_expressions.specs.Signs.{is_plain, is_sign};
ghost use Rattle.twelf_expressions.specs.Frames.{read_binding, read_brace};
ghost use Rattle.twelf_expressions.specs.declared.frame.Row.TheVariants as rows;

use crate::level::Level;
use lf_terms::Span;
use mmt_syntax::{Binder, Expr, Exprs};
use twelf_lexer::Sign;

/// An expression, and the span that its tokens take, with parentheses around the whole.
#[derive(Drop)]
pub(crate) struct Spelled {
    pub span: Span,
    pub tree: Expr,
}

/// Where an operand stands: first, after `->`, or after `<-` behind the row so far.
#[derive(Drop)]
pub(crate) enum Row {
    Plain,
    AfterArrow,
    AfterBack(Spelled),
}

/// The atoms so far of an operand: the first, and the others in order. The span is that of all of them.
#[derive(Drop)]
pub(crate) struct Atoms {
    pub span: Span,
    pub head: Expr,
    pub args: Exprs,
}

/// An operand that is being read.
#[derive(Drop)]
pub(crate) struct Operand {
    pub level: Level,
    pub row: Row,
    pub atoms: Option<Atoms>,
}

/// The brackets of a binder.
#[derive(Clone, Copy)]
pub(crate) enum Brace {
    Curly,
    Square,
}

/// A binder without its body.
#[derive(Drop)]
pub(crate) enum Binding {
    Pi(Binder, Box<Expr>),
    Lam(Binder),
    TypedLam(Binder, Box<Expr>),
}

/// What opens before an expression: parentheses, a binder whose domain it is, or a binder whose body it is. Each has the
/// span of its opening bracket.
#[derive(Drop)]
pub(crate) enum Opening {
    Parens(Span),
    Domain(Brace, Span, Binder),
    Body(Span, Binding),
}

/// What waits for an expression: what opened before it, and the operand in which that stands; or what stands before `->`.
#[derive(Drop)]
pub(crate) enum Frame {
    Open(Opening, Operand),
    Codomain(Spelled),
}

/// The operand that is being read, and what waits for it, the innermost last.
#[derive(Drop)]
pub(crate) struct Stack {
    pub frames: Vec<Frame>,
    pub operand: Operand,
}

impl Brace {
    /// The bracket that closes the binder before its body.
    pub(crate) fn closing(self) -> Sign
        ensures mark { mark_of result ≡ right_sign (read_brace self) }
        ensures plain { is_plain result ≡ true }
        ensures not_end { is_sign (mark_of result) (Mark EndSign) ≡ false }
    {
        match self {
            Brace::Curly => Sign::RBrace,
            Brace::Square => Sign::RBracket,
        }
    }

    /// The binder of these brackets with a domain.
    pub(crate) fn binding(self, name: Binder, domain: Box<Expr>) -> Binding
        ensures { read_binding result ≡ typed (read_brace self) (read_binder name) (read_expr domain.value) }
    {
        match self {
            Brace::Curly => Binding::Pi(name, domain),
            Brace::Square => Binding::TypedLam(name, domain),
        }
    }
}

impl Operand {
    /// The first operand of an expression, before its first token.
    pub(crate) fn first(level: Level) -> Operand
        ensures { result ≡ record { level = level; row = rows.Plain; atoms = None } }
    {
        Operand {
            level,
            row: Row::Plain,
            atoms: None,
        }
    }
}
