//! The text of a `put`, up to its end line.
ghost use Rattle.std.specs.Prelude.{◌≡◌, ◌≤◌, suc, length, IfOk, IfErr, IfSome};
ghost use Rattle.mmt_outside.specs.Bytes.{preceded, ReadPrefix};
ghost use Rattle.printing_meaning.specs.Lines.{lines_of};
ghost use Rattle.script_reader.specs.Pieces.{IsCaused};
ghost use Rattle.script_reader.specs.Texts.{ReadsPiece, TextGives, StaysTold, IsWithinLimit};

use crate::buffer::Buffer;
use crate::fault::ScriptFault;
use crate::kept::KeptText;
use crate::line::{LineEnd, read_line};
use crate::said::is_end_line;
use mmt_outside::Source;
use std::alloc::Global;

/// The greatest number of bytes between a `put` line and its end line, or the end of the input.
const PUT_LIMIT: u64 = 1 << 26;

/// A line with so many bytes is no end line, which has seven at most with its line end.
const NO_END_LINE: usize = 8;

/// What the next piece of a text is. No piece is longer than a buffer and a short line.
pub(crate) enum TextPiece {
    /// The rest of a line.
    Line,
    /// A part of a line that is too long to be an end line.
    Part,
    /// The end line.
    End,
    /// The last of the input, and no end line.
    Last,
}

/// How a text ended.
#[derive(Drop)]
pub(crate) enum Ending {
    /// What is kept of the text.
    Whole(Vec<u8>),
    TooLong,
    Unended,
}

/// Reads a piece of a text, and adds it to the text where it is not the end line. Whether the line has begun
/// already is given.
fn read_piece<S: Source>(
    buffer: &mut Buffer,
    source: &mut S,
    piece: &mut Vec<u8>,
    is_begun: bool,
    text: &mut KeptText,
) -> Result<TextPiece, ScriptFault>
    ensures piece { IfOk result (λ read. ReadsPiece (preceded buffer.old (S.left source.old)) (preceded buffer.new (S.left source.new))
        is_begun text.old text.new read) }
    ensures left { ReadPrefix (preceded buffer.old (S.left source.old)) (preceded buffer.new (S.left source.new)) }
    ensures later { S.faults source.old ≤ S.faults source.new }
    ensures cause { IfErr result (λ fault. IsCaused (S.faults source.old) (S.faults source.new) fault) }
{
    piece.clear();
    let end = read_line(buffer, source, piece, NO_END_LINE)?;
    if !is_begun && is_end_line(piece) {
        return Ok(TextPiece::End);
    }
    text.push(piece)?;
    Ok(match end {
        LineEnd::Feed => TextPiece::Line,
        LineEnd::Limit => TextPiece::Part,
        LineEnd::Input => TextPiece::Last,
    })
}

/// Reads the text in front of the next end line, and that line. The count of lines goes on over what was read.
pub(crate) fn read_text<S: Source>(
    alloc: Global,
    buffer: &mut Buffer,
    source: &mut S,
    line: &mut u64,
) -> Result<Ending, ScriptFault>
    // Where the bytes to come are told, the ending is that of their lines.
    ensures text { IfOk result (λ ending. IfSome (preceded buffer.old (S.left source.old))
        (λ bytes. TextGives ending (lines_of bytes) (preceded buffer.new (S.left source.new)) line.old line.new)) }
    ensures told { IfOk result (λ ending. StaysTold (preceded buffer.old (S.left source.old)) (preceded buffer.new (S.left source.new))) }

    // Told or not.
    ensures within { IfOk result IsWithinLimit }
    ensures left { ReadPrefix (preceded buffer.old (S.left source.old)) (preceded buffer.new (S.left source.new)) }
    ensures later { S.faults source.old ≤ S.faults source.new }
    ensures cause { IfErr result (λ fault. IsCaused (S.faults source.old) (S.faults source.new) fault) }
{
    let mut text = KeptText::new(alloc);
    let mut piece = Vec::new(alloc);
    let mut is_begun = false;
    while text.total() <= PUT_LIMIT {
        let read = read_piece(buffer, source, &mut piece, is_begun, &mut text)?;
        match read {
            TextPiece::Part => is_begun = true,
            TextPiece::Line => {
                is_begun = false;
                *line = line.saturating_add(1);
            }
            TextPiece::End => {
                *line = line.saturating_add(1);
                return Ok(Ending::Whole(text.into_kept()));
            }
            TextPiece::Last if text.total() > PUT_LIMIT => return Ok(Ending::TooLong),
            TextPiece::Last => return Ok(Ending::Unended),
        }
    }
    Ok(Ending::TooLong)
}
