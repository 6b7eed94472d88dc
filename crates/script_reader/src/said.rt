//! What a line says.
ghost use Rattle.std.specs.Prelude.{◌≡◌, ◌<◌, ◌≤◌, ◌==◌, ◌+◌, length, drop, IfOk, if◌then◌else◌, Some, None};
ghost use Rattle.std.specs.List.{list_all, position};
ghost use Rattle.std.specs.Str.Lines.{strip_carriage_return};
ghost use Rattle.printing_meaning.specs.Lines as lines;
ghost use Rattle.run_meaning.specs.ScriptCommands as commands;
ghost use Rattle.edit_log_meaning.specs.Log as edits;
ghost use Rattle.name_meaning.specs.Limits.{line_limit};
ghost use Rattle.printing_meaning.specs.ScriptLines.{is_name, is_silent, is_end_line};
ghost use Rattle.name_meaning.specs.Characters as characters;
ghost use Rattle.script_reader.specs.Said.{read_said, IsWithin};

use crate::command::Command;
use identifiers::is_white_space;
use lf_terms::{Bytes, Memory, Name, NameFault};
use std::alloc::Global;

/// The greatest length of a line outside the text of a `put`, its line end not counted.
pub(crate) const LINE_LIMIT: usize = 1024;

/// What a line says that is no part of a text.
#[derive(Drop)]
pub(crate) enum Said {
    /// A text is put under this name; it follows.
    Puts(Name),
    /// A command that is whole.
    Says(Command),
    Wrong,
}

fn without_return(line: &[u8]) -> &[u8]
    ensures { result.now ≡ strip_carriage_return line.now }
{
    match line {
        [front @ .., b'\r'] => front,
        _ => line,
    }
}

fn without_line_feed(line: &[u8]) -> &[u8]
    ensures { result.now ≡ lines.without_line_feed line.now }
{
    match line {
        [front @ .., b'\n'] => front,
        _ => line,
    }
}

fn content(line: &[u8]) -> &[u8]
    ensures { result.now ≡ lines.content_of line.now }
{
    match line {
        [front @ .., b'\n'] => without_return(front),
        _ => line,
    }
}

/// Whether the line ends the text of a `put`.
pub(crate) fn is_end_line(line: &[u8]) -> bool
    ensures { result ≡ is_end_line line.now }
{
    without_return(without_line_feed(line)) == b"%%end".as_slice()
}

fn name_of(alloc: Global, bytes: &[u8]) -> Result<Option<Name>, Memory>
    ensures { IfOk result (λ name. name ≡ (if is_name bytes.now then Some bytes.now else None)) }
{
    let Ok(text) = str::from_utf8(bytes) else {
        return Ok(None);
    };
    match Name::new(alloc, text) {
        Ok(name) => Ok(Some(name)),
        Err(NameFault::NotAName) => Ok(None),
        Err(NameFault::Memory) => Err(Memory),
    }
}

fn is_blank(content: &[u8]) -> bool
    ensures { result ≡ list_all characters.is_white_space content.now }
{
    content.iter().all(|byte| is_white_space(*byte))
}

/// Whether the content of a line is blank or a comment.
fn is_silent(content: &[u8]) -> bool
    ensures { result ≡ is_silent content.now }
{
    is_blank(content) || content.starts_with(b"#")
}

fn puts(alloc: Global, name: &[u8]) -> Result<Said, Memory>
    requires { length name.now ≤ line_limit }
    ensures said { IfOk result (λ said. read_said said ≡ Some (commands.of_name commands.Puts name.now)) }
    ensures within { IfOk result IsWithin }
{
    Ok(match name_of(alloc, name)? {
        Some(name) => Said::Puts(name),
        None => Said::Wrong,
    })
}

fn drops(alloc: Global, name: &[u8]) -> Result<Said, Memory>
    requires { length name.now ≤ line_limit }
    ensures said { IfOk result (λ said. read_said said ≡ Some (commands.of_name (λ name. commands.Says (commands.EditCommand (edits.Drop name))) name.now)) }
    ensures within { IfOk result IsWithin }
{
    Ok(match name_of(alloc, name)? {
        Some(name) => Said::Says(Command::Drop(name)),
        None => Said::Wrong,
    })
}

fn reports(alloc: Global, name: &[u8]) -> Result<Said, Memory>
    requires { length name.now ≤ line_limit }
    ensures said { IfOk result (λ said. read_said said ≡ Some (commands.of_name (λ name. commands.Says (commands.ReportCommand name)) name.now)) }
    ensures within { IfOk result IsWithin }
{
    Ok(match name_of(alloc, name)? {
        Some(name) => Said::Says(Command::Report(name)),
        None => Said::Wrong,
    })
}

fn asks_flat(alloc: Global, name: &[u8]) -> Result<Said, Memory>
    requires { length name.now ≤ line_limit }
    ensures said { IfOk result (λ said. read_said said ≡ Some (commands.of_name (λ name. commands.Says (commands.FlatCommand name)) name.now)) }
    ensures within { IfOk result IsWithin }
{
    Ok(match name_of(alloc, name)? {
        Some(name) => Said::Says(Command::Flat(name)),
        None => Said::Wrong,
    })
}

fn space_at(words: &[u8]) -> Option<usize>
    ensures { result ≡ position (λ byte. byte == 32) words.now }
{
    words.iter().position(|byte| *byte == b' ')
}

/// What stands behind the byte at this index.
fn behind(words: &[u8], at: usize) -> &[u8]
    requires { at < length words.now }
    ensures { result.now ≡ drop (at + 1) words.now }
{
    &words[at + 1..]
}

/// What carrying a judgement along the view of this name says.
fn carries_along(alloc: Global, view: &[u8], judgement: &[u8]) -> Result<Said, Memory>
    requires view { length view.now ≤ line_limit }
    requires judgement { length judgement.now ≤ line_limit }
    ensures said { IfOk result (λ said. read_said said ≡ Some (commands.of_name (λ name. commands.carry_of name judgement.now) view.now)) }
    ensures within { IfOk result IsWithin }
{
    let Some(view) = name_of(alloc, view)? else {
        return Ok(Said::Wrong);
    };
    if judgement.is_empty() {
        return Ok(Said::Wrong);
    }
    let text = Bytes::from_vec(Vec::from_slice(alloc, judgement)?);
    Ok(Said::Says(Command::Carry { view, text }))
}

/// The judgement is all that stands behind the first space.
fn carries(alloc: Global, words: &[u8]) -> Result<Said, Memory>
    requires { length words.now ≤ line_limit }
    ensures said { IfOk result (λ said. read_said said ≡ Some (commands.carry_by (commands.parted_at_space words.now))) }
    ensures within { IfOk result IsWithin }
{
    match space_at(words) {
        Some(at) => carries_along(alloc, &words[..at], behind(words, at)),
        None => Ok(Said::Wrong),
    }
}

fn command_by(alloc: Global, content: &[u8]) -> Result<Said, Memory>
    requires { length content.now ≤ line_limit }
    ensures said { IfOk result (λ said. read_said said ≡ Some (commands.command_by content.now)) }
    ensures within { IfOk result IsWithin }
{
    if content.starts_with(b"put ") {
        puts(alloc, &content[4..])
    } else if content.starts_with(b"drop ") {
        drops(alloc, &content[5..])
    } else if content.starts_with(b"report ") {
        reports(alloc, &content[7..])
    } else if content == b"check".as_slice() {
        Ok(Said::Says(Command::Check))
    } else if content.starts_with(b"flat ") {
        asks_flat(alloc, &content[5..])
    } else if content.starts_with(b"carry ") {
        carries(alloc, &content[6..])
    } else if content == b"log".as_slice() {
        Ok(Said::Says(Command::Log))
    } else {
        Ok(Said::Wrong)
    }
}

fn said_by_content(alloc: Global, content: &[u8]) -> Result<Said, Memory>
    ensures said { IfOk result (λ said. read_said said ≡ Some (commands.said_by content.now)) }
    ensures within { IfOk result IsWithin }
{
    if content.len() > LINE_LIMIT {
        return Ok(Said::Wrong);
    }
    if is_silent(content) {
        return Ok(Said::Says(Command::Blank));
    }
    command_by(alloc, content)
}

/// What a line says, its line end included.
pub(crate) fn said_by(alloc: Global, line: &[u8]) -> Result<Said, Memory>
    ensures said { IfOk result (λ said. read_said said ≡ Some (commands.said_by (lines.content_of line.now))) }
    ensures within { IfOk result IsWithin }
{
    said_by_content(alloc, content(line))
}
