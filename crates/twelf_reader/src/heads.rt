//! What stands before the body of a module or a structure, and behind it.
ghost use Rattle.std.specs.Prelude.{◌≡◌, ◌<◌, false, true, length, IfOk, OnOk};
ghost use Rattle.text_meaning.specs.Tokens.{Mark, EndSign};
ghost use Rattle.text_meaning.specs.Reading.{Read, Tree};
ghost use Rattle.text_meaning.specs.Parsing.{Expect, ExpectName, Simple, State, answer_on, as_written, is_refused};
ghost use Rattle.mmt_syntax.specs.Readings.{read_written};
ghost use Rattle.twelf_lexer.specs.Lexemes.{mark_of};
ghost use Rattle.twelf_expressions.specs.Signs.{is_plain, is_sign};
ghost use Rattle.twelf_expressions.specs.Left.{left};
ghost use Rattle.twelf_expressions.specs.Going.{Goes, simple_of};
ghost use Rattle.twelf_reader.specs.Items.{body_begins, text_ends};

use mmt_syntax::Written;
use twelf_expressions::{ReadFault, Reader};
use twelf_lexer::Sign;

/// Takes this sign and the name behind it, which must come.
pub(crate) fn name_behind(reader: &mut Reader, mark: Sign) -> Result<Written, ReadFault>
    requires plain { is_plain mark ≡ true }
    requires not_end { is_sign (mark_of mark) (Mark EndSign) ≡ false }
    ensures goes { (f : Simple → State) → ((x : Simple) → is_refused (f x) ≡ false) → Goes (answer_on (Expect (mark_of mark) (ExpectName f)) (left reader.old)) result (λ word. answer_on (f (simple_of word)) (left reader.new)) }
    ensures less { OnOk result (length (left reader.new) < length (left reader.old)) }
    ensures one { IfOk result (λ word. as_written (simple_of word) ≡ read_written word) }
{
    reader.expect(mark)?;
    let name = reader.name()?;
    Ok(name)
}

/// Takes `= {`, which must come.
pub(crate) fn open_body(reader: &mut Reader) -> Result<(), ReadFault>
    ensures goes { (inside : State) → is_refused inside ≡ false → Goes (answer_on (body_begins inside) (left reader.old)) result (λ _. answer_on inside (left reader.new)) }
    ensures less { OnOk result (length (left reader.new) < length (left reader.old)) }
{
    reader.expect(Sign::Equal)?;
    reader.expect(Sign::LBrace)?;
    Ok(())
}

/// Behind the brace that ends a module: a dot, and the end of the input.
pub(crate) fn end_text(reader: &mut Reader) -> Result<(), ReadFault>
    ensures { (tree : Tree) → Goes (answer_on (text_ends tree) (left reader.old)) result (λ _. Read tree) }
{
    reader.expect(Sign::Dot)?;
    reader.finish()?;
    Ok(())
}
