//! What a reader has before it.
ghost use Rattle.std.specs.Prelude.{◌≤◌, ◌^◌, length};
ghost use Rattle.twelf_lexer.specs.Lexemes.{IsLexeme};
ghost use Rattle.twelf_lexer.proofs.Props.{lexeme_prop};

use crate::frame::Frame;
use crate::outline::Bracket;
use std::alloc::Global;
use twelf_lexer::{Lexeme, NameTable};

/// What is left to read of a text: what stands next, and what is behind it.
#[derive(Drop)]
pub struct Reader<'a> {
    /// The allocator of all that is read.
    pub alloc: Global,
    pub(crate) names: NameTable,
    pub(crate) text: &'a str,
    pub(crate) next: Lexeme,
    /// Room for the frames of an expression, which all expressions of a text use in turn.
    pub(crate) frames: Vec<Frame>,
    /// Room for the brackets that are open in an expression which is passed over.
    pub(crate) brackets: Vec<Bracket>,
    ghost small: { length text.now ≤ 2 ^ 26 },
    ghost stands: { IsLexeme text.now next } by { lexeme_prop text.now next },
}
