//! One line of the bytes to come.
ghost use Rattle.std.specs.Prelude.{◌≡◌, ◌<◌, ◌≤◌, length, take, slice_index, MatchOption, IfOk, IfErr, OnErr};
ghost use Rattle.mmt_outside.specs.Bytes.{preceded, ReadPrefix};
ghost use Rattle.printing_meaning.specs.Lines.{NoFeed};
ghost use Rattle.script_reader.specs.Pieces.{MovesFront, ReadsLine, IsCaused};

use crate::buffer::Buffer;
use crate::fault::ScriptFault;
use mmt_outside::Source;
use std::alloc::AllocError;

/// Why no more of a line was read.
#[derive(Clone, Copy, Debug, PartialEq, Eq)]
pub(crate) enum LineEnd {
    /// Its line feed was.
    Feed,
    /// The input ended.
    Input,
    /// It came to a length without a line feed.
    Limit,
}

/// Where the first line feed is.
fn feed_at(bytes: &[u8]) -> Option<usize>
    ensures { MatchOption result (NoFeed bytes.now)
        (λ i. (i < length bytes.now) × NoFeed (take i bytes.now) × (slice_index bytes.now i ≡ 10)) }
{
    for (i, byte) in bytes.iter().enumerate() {
        if *byte == b'\n' {
            return Some(i);
        }
    }
    None
}

/// Moves buffered bytes to the end of the line, as far as the first line feed. The answer says whether there was one.
fn move_front(buffer: &mut Buffer, line: &mut Vec<u8>) -> Result<bool, AllocError>
    ensures moved { IfOk result (λ whole. MovesFront buffer.old buffer.new line.old.items line.new.items whole) }
    ensures unmoved { OnErr result (buffer.new ≡ buffer.old) }
{
    let found = feed_at(buffer.as_slice());
    let count = match found {
        Some(i) => i + 1,
        None => buffer.as_slice().len(),
    };
    line.extend_from_slice(&buffer.as_slice()[..count])?;
    buffer.skip(count);
    Ok(found.is_some())
}

/// Reads to the end of the line, until its line feed was read, the input ended, or it has so many bytes.
pub(crate) fn read_line<S: Source>(
    buffer: &mut Buffer,
    source: &mut S,
    line: &mut Vec<u8>,
    most: usize,
) -> Result<LineEnd, ScriptFault>
    ensures line { IfOk result (λ end. ReadsLine (preceded buffer.old (S.left source.old)) (preceded buffer.new (S.left source.new))
        line.old.items line.new.items most end) }
    ensures left { ReadPrefix (preceded buffer.old (S.left source.old)) (preceded buffer.new (S.left source.new)) }
    ensures later { S.faults source.old ≤ S.faults source.new }
    ensures cause { IfErr result (λ fault. IsCaused (S.faults source.old) (S.faults source.new) fault) }
{
    while line.len() < most {
        buffer.refill(source)?;
        if buffer.is_empty() {
            return Ok(LineEnd::Input);
        }
        if move_front(buffer, line)? {
            return Ok(LineEnd::Feed);
        }
    }
    Ok(LineEnd::Limit)
}
