//! The modules of a file, which are not read.
ghost use Rattle.std.specs.Prelude.{◌≡◌, ◌≤◌, ◌^◌, length, IfErr, IfOk};
ghost use Rattle.text_meaning.specs.Cutting.{lex};
ghost use Rattle.text_meaning.specs.Dividing.{divide};
ghost use Rattle.text_meaning.specs.Splitting.{Division, FileDivides, Pieces as Modules};
ghost use Rattle.twelf_reader.specs.Division.{DividesSo, IsFileFault, read_pieces};

use crate::pieces::pieces;
use crate::texts::{in_utf8, settled};
use lf_terms::{Sequence, Span};
use mmt_syntax::Written;
use std::alloc::Global;
use twelf_expressions::{ReadFault, Reader};

/// A module of a file: its name, and its bytes in the file, half open, from its first word to the dot that ends it.
#[derive(Debug, Drop)]
pub struct Piece {
    pub name: Written,
    pub span: Span,
}

/// Modules of a file, in its order.
pub type Pieces = Sequence<Piece>;

/// The modules into which a file of at most 2^26 bytes divides: `%sig` or `%view`, a name, and all up to the brace that
/// closes the first one, with a dot behind it. What is inside is not read. It answers the modules exactly where the file
/// divides so, `Unsupported` at another percent word between modules, and `Syntax` at any other token that does not go on,
/// at the end of the input within a module, and where the lexer has a fault; but it may answer `Memory` for any file. It
/// never answers `TooDeep`.
pub fn split(alloc: Global, text: &[u8]) -> Result<Pieces, ReadFault>
    requires small { length text.now ≤ 2 ^ 26 }
    ensures ok { IfOk result (λ pieces. FileDivides text.now (Modules (read_pieces pieces))) }
    ensures fault { IfErr result (λ fault. IsFileFault text.now fault) }
    ensures only { (division : Division) → FileDivides text.now division → DividesSo division result (λ pieces. Modules (read_pieces pieces)) }
{
    let text = in_utf8(text)?;
    divided(alloc, text)
}

/// The modules of a file that is UTF-8.
fn divided(alloc: Global, text: &str) -> Result<Pieces, ReadFault>
    requires small { length text.now ≤ 2 ^ 26 }
    ensures { DividesSo (divide (lex text.now)) result (λ pieces. Modules (read_pieces pieces)) }
{
    let mut reader = Reader::new(alloc, text);
    match pieces(&mut reader) {
        Ok(pieces) => Ok(pieces),
        Err(fault) => Err(settled(text, fault)),
    }
}
