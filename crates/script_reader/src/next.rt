//! The next command of the bytes to come.
ghost use Rattle.std.specs.Prelude.{◌≡◌, ◌≤◌, ℕ, List, [], length, IfOk, IfErr, OnOk, IfSome};
ghost use Rattle.mmt_outside.specs.Bytes.{preceded, ReadPrefix};
ghost use Rattle.printing_meaning.specs.Lines.{lines_of};
ghost use Rattle.name_meaning.specs.Limits.{line_limit};
ghost use Rattle.run_meaning.specs.ScriptCommands.{put_of, next_of};
ghost use Rattle.script_reader.specs.Pieces.{IsCaused};
ghost use Rattle.script_reader.specs.Commands.{IsShort};
ghost use Rattle.script_reader.specs.Answers.{IsFirstLine, IsAnswer, HasCause};
ghost use Rattle.script_reader.specs.Texts.{StaysTold};

use crate::buffer::Buffer;
use crate::command::Command;
use crate::fault::ScriptFault;
use crate::line::{LineEnd, read_line};
use crate::said::{LINE_LIMIT, Said, said_by};
use crate::text::{Ending, read_text};
use lf_terms::{Bytes, Name};
use mmt_outside::Source;
use std::alloc::Global;

/// The first of the lines to come.
#[derive(Drop)]
enum FirstLine {
    Whole(Vec<u8>),
    TooLong,
    Missing,
}

fn first_line<S: Source>(
    alloc: Global,
    buffer: &mut Buffer,
    source: &mut S,
) -> Result<FirstLine, ScriptFault>
    ensures line { IfOk result (λ line. IsFirstLine line (preceded buffer.old (S.left source.old)) (preceded buffer.new (S.left source.new))) }
    ensures left { ReadPrefix (preceded buffer.old (S.left source.old)) (preceded buffer.new (S.left source.new)) }
    ensures later { S.faults source.old ≤ S.faults source.new }
    ensures cause { IfErr result (λ fault. IsCaused (S.faults source.old) (S.faults source.new) fault) }
{
    let mut line = Vec::new(alloc);
    // A line end has two bytes at most.
    match read_line(buffer, source, &mut line, LINE_LIMIT + 3)? {
        LineEnd::Limit => Ok(FirstLine::TooLong),
        LineEnd::Input if line.is_empty() => Ok(FirstLine::Missing),
        LineEnd::Input => Ok(FirstLine::Whole(line)),
        LineEnd::Feed => Ok(FirstLine::Whole(line)),
    }
}

/// Reads the text of a `put` of this name. Its line has the number `first`.
fn put<S: Source>(
    alloc: Global,
    buffer: &mut Buffer,
    source: &mut S,
    line: &mut u64,
    first: u64,
    name: Name,
) -> Result<Command, ScriptFault>
    requires { length name ≤ line_limit }
    ensures answer { IfSome (preceded buffer.old (S.left source.old))
        (λ bytes. IsAnswer result (put_of name (lines_of bytes)) (lines_of bytes) (preceded buffer.new (S.left source.new)) first line.old line.new) }
    ensures told { OnOk result (StaysTold (preceded buffer.old (S.left source.old)) (preceded buffer.new (S.left source.new))) }
    ensures within { IfOk result IsShort }
    ensures left { ReadPrefix (preceded buffer.old (S.left source.old)) (preceded buffer.new (S.left source.new)) }
    ensures later { S.faults source.old ≤ S.faults source.new }
    ensures cause { IfErr result (λ fault. HasCause (S.faults source.old) (S.faults source.new) fault) }
{
    match read_text(alloc, buffer, source, line)? {
        Ending::Whole(text) => Ok(Command::Put {
            name,
            text: Bytes::from_vec(text),
        }),
        Ending::TooLong => Err(ScriptFault::Bad { line: first }),
        Ending::Unended => Err(ScriptFault::Unended { line: first }),
    }
}

/// Reads the next command. The line that it begins on is counted, and those of a text.
pub(crate) fn next<S: Source>(
    alloc: Global,
    buffer: &mut Buffer,
    source: &mut S,
    line: &mut u64,
) -> Result<Command, ScriptFault>
    ensures answer { IfSome (preceded buffer.old (S.left source.old))
        (λ bytes. IsAnswer result (next_of (lines_of bytes)) (lines_of bytes) (preceded buffer.new (S.left source.new)) line.old line.old line.new) }
    ensures told { OnOk result (StaysTold (preceded buffer.old (S.left source.old)) (preceded buffer.new (S.left source.new))) }
    ensures within { IfOk result IsShort }
    ensures left { ReadPrefix (preceded buffer.old (S.left source.old)) (preceded buffer.new (S.left source.new)) }
    ensures later { S.faults source.old ≤ S.faults source.new }
    ensures cause { IfErr result (λ fault. HasCause (S.faults source.old) (S.faults source.new) fault) }
{
    let first = *line;
    let text = match first_line(alloc, buffer, source)? {
        FirstLine::Whole(text) => text,
        FirstLine::TooLong => return Err(ScriptFault::Bad { line: first }),
        FirstLine::Missing => return Ok(Command::End),
    };
    *line = first.saturating_add(1);
    match said_by(alloc, &text)? {
        Said::Puts(name) => put(alloc, buffer, source, line, first, name),
        Said::Says(command) => Ok(command),
        Said::Wrong => Err(ScriptFault::Bad { line: first }),
    }
}
