//! The modules of a file, one after the other.
ghost use Rattle.std.specs.Prelude.{◌≡◌, ◌<◌, ◌≤◌, ◌^◌, ℕ, None, Some, false, length, IfOk, OnOk};
ghost use Rattle.text_meaning.specs.Tokens as tokens;
ghost use Rattle.text_meaning.specs.Tokens.{EndSign};
ghost use Rattle.text_meaning.specs.Trees as trees;
ghost use Rattle.text_meaning.specs.Dividing.{AtDot, AtName, AtTop, BeforeBody, InBody, divide_on};
ghost use Rattle.text_meaning.specs.Splitting.{Pieces as Modules};
ghost use Rattle.mmt_syntax.specs.Readings.{read_span, read_written};
ghost use Rattle.twelf_expressions.specs.Signs.{is_sign};
ghost use Rattle.twelf_expressions.specs.Left.{left, next_kind, next_token};
ghost use Rattle.twelf_reader.specs.Division.{DividesSo, behind_dot, in_body, next_piece, read_pieces};

use crate::file::{Piece, Pieces};
use lf_terms::Span;
use mmt_syntax::Written;
use twelf_expressions::{ReadFault, Reader};
use twelf_lexer::{PercentWord, Sign};

/// The modules that are left, up to the end of the input.
pub(crate) fn pieces(reader: &mut Reader) -> Result<Pieces, ReadFault>
    ensures { DividesSo (divide_on AtTop (left reader.old)) result (λ pieces. Modules (read_pieces pieces)) }
{
    let mut pieces = Pieces::new(reader.alloc);
    while let Some(piece) = piece(reader)? {
        pieces.add(piece)?;
    }
    Ok(pieces)
}

/// The next module. None at the end of the input.
fn piece(reader: &mut Reader) -> Result<Option<Piece>, ReadFault>
    ensures goes { DividesSo (divide_on AtTop (left reader.old)) result (λ piece. next_piece piece (left reader.new)) }
    ensures less { IfOk result (λ piece. ¬ (piece ≡ None) → length (left reader.new) < length (left reader.old)) }
{
    if reader.sees(Sign::End) {
        return Ok(None);
    }
    let word = module_word(reader)?;
    let name = module_name(reader)?;
    open_braces(reader)?;
    close_braces(reader)?;
    let dot = last_dot(reader)?;
    let span = Span {
        from: word.from,
        to: dot.to,
    };
    Ok(Some(Piece { name, span }))
}

/// Takes `%sig` or `%view`, which must come.
fn module_word(reader: &mut Reader) -> Result<Span, ReadFault>
    requires { is_sign EndSign (next_kind (left reader.old)) ≡ false }
    ensures goes { DividesSo (divide_on AtTop (left reader.old)) result (λ word. divide_on (AtName (read_span word)) (left reader.new)) }
    ensures less { OnOk result (length (left reader.new) < length (left reader.old)) }
{
    match reader.ahead() {
        Sign::Percent(PercentWord::Sig) => Ok(reader.take(Sign::Percent(PercentWord::Sig))),
        Sign::Percent(PercentWord::View) => Ok(reader.take(Sign::Percent(PercentWord::View))),
        Sign::Percent(_) => Err(ReadFault::Unsupported { at: reader.place() }),
        _ => Err(ReadFault::Syntax { at: reader.place() }),
    }
}

/// Takes the name of a module, which must come.
fn module_name(reader: &mut Reader) -> Result<Written, ReadFault>
    ensures goes { (word : tokens.Span) → DividesSo (divide_on (AtName word) (left reader.old)) result (λ name. divide_on (BeforeBody word (read_written name) name.span.from) (left reader.new)) }
    ensures less { OnOk result (length (left reader.new) < length (left reader.old)) }
{
    if !reader.sees_name() {
        return Err(ReadFault::Syntax { at: reader.place() });
    }
    let name = reader.take_simple()?;
    Ok(name)
}

/// Passes over all up to the first opening brace, and over that.
fn open_braces(reader: &mut Reader) -> Result<(), ReadFault>
    ensures goes { (word : tokens.Span) (name : trees.Written) (last : ℕ) → DividesSo (divide_on (BeforeBody word name last) (left reader.old)) result (λ _. divide_on (InBody word name 0 0) (left reader.new)) }
    ensures less { OnOk result (length (left reader.new) < length (left reader.old)) }
{
    'tokens: loop {
        let at = reader.place();
        let opens = reader.sees(Sign::LBrace);
        if !reader.pass() {
            return Err(ReadFault::Syntax { at });
        }
        if opens {
            return Ok(());
        }
    }
}

/// Passes over all up to the brace that closes the first one, and over that.
fn close_braces(reader: &mut Reader) -> Result<(), ReadFault>
    ensures goes { (word : tokens.Span) (name : trees.Written) (last : ℕ) → DividesSo (divide_on (InBody word name 0 last) (left reader.old)) result (λ _. divide_on (AtDot word name) (left reader.new)) }
    ensures less { OnOk result (length (left reader.new) < length (left reader.old)) }
{
    let mut inner: u32 = 0;
    'tokens: loop {
        match brace(reader, inner)? {
            Some(next) => inner = next,
            None => return Ok(()),
        }
    }
}

/// Passes over the next token in a body where so many further braces are open. How many are open then; None where the
/// body is closed.
fn brace(reader: &mut Reader, inner: u32) -> Result<Option<u32>, ReadFault>
    requires { inner ≤ (next_token (left reader.old)).span.from }
    ensures goes { (word : tokens.Span) (name : trees.Written) (last : ℕ) → DividesSo (divide_on (InBody word name inner last) (left reader.old)) result (λ next. divide_on (in_body word name next) (left reader.new)) }
    ensures within { IfOk result (λ next. (n : ℕ) → next ≡ Some n → n ≤ (next_token (left reader.new)).span.from) }
    ensures less { OnOk result (length (left reader.new) < length (left reader.old)) }
{
    let at = reader.place();
    let sign = reader.ahead();
    if !reader.pass() {
        return Err(ReadFault::Syntax { at });
    }
    match sign {
        Sign::LBrace => Ok(Some(inner + 1)),
        Sign::RBrace => Ok(inner.checked_sub(1)),
        _ => Ok(Some(inner)),
    }
}

/// Takes the dot behind a module, which must come.
fn last_dot(reader: &mut Reader) -> Result<Span, ReadFault>
    ensures goes { (word : tokens.Span) (name : trees.Written) → DividesSo (divide_on (AtDot word name) (left reader.old)) result (λ dot. behind_dot word name (read_span dot) (left reader.new)) }
    ensures less { OnOk result (length (left reader.new) < length (left reader.old)) }
{
    if !reader.sees(Sign::Dot) {
        return Err(ReadFault::Syntax { at: reader.place() });
    }
    Ok(reader.take(Sign::Dot))
}
