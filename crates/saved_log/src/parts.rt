//! The record that a run of bytes begins with. It is read in place, and takes no memory.
ghost use Rattle.std.specs.Prelude.{◌≡◌, ◌<◌, ◌^◌, ◌&&◌, length, true, false, IfSome, MatchOption};
ghost use Rattle.std.specs.Option.{option_map, option_and_then};
ghost use Rattle.saved_log_meaning.specs.Records as records;
ghost use Rattle.saved_log.specs.Parts.{read_piece, read_parts};

use identifiers::is_identifier;
use std::str;

/// The kind of a record that puts a text.
pub(crate) const PUT: u8 = 0;
/// The kind of a record that drops a name.
pub(crate) const DROP: u8 = 1;

/// The parts of a record: its name, the text that it puts, if it puts one, and the bytes behind it.
#[derive(Clone, Copy)]
pub(crate) struct RecordParts<'a> {
    pub(crate) name: &'a str,
    pub(crate) text: Option<&'a [u8]>,
    pub(crate) rest: &'a [u8],
}

/// The first bytes, so many, and those behind them. None exactly where there are not as many.
fn first_bytes(bytes: &[u8], count: usize) -> Option<(&[u8], &[u8])>
    ensures { option_map read_piece result ≡ records.first_bytes count bytes.now }
{
    if count > bytes.len() {
        return None;
    }
    Some(bytes.split_at(count))
}

/// The piece that the bytes begin with, behind its length in four bytes, the least one first.
fn piece_of(bytes: &[u8]) -> Option<(&[u8], &[u8])>
    ensures read { option_map read_piece result ≡ records.piece_of bytes.now }
    ensures short { IfSome result (λ piece. length piece.0.now < 2 ^ 32) }
{
    let [first, second, third, fourth, rest @ ..] = bytes else {
        return None;
    };
    let size = u32::from_le_bytes([*first, *second, *third, *fourth]);
    first_bytes(rest, size as usize)
}

/// The bytes as a name that can stand in a saved log. None exactly where they are not UTF-8, or no identifier.
fn saved_name(bytes: &[u8]) -> Option<&str>
    ensures { MatchOption result (records.is_saved_name bytes.now ≡ false) (λ name. (name.now ≡ bytes.now) × (records.is_saved_name bytes.now ≡ true)) }
{
    let Ok(name) = str::from_utf8(bytes) else {
        return None;
    };
    if is_identifier(bytes) {
        Some(name)
    } else {
        None
    }
}

/// The name that the bytes begin with: a piece that can stand in a saved log as a name.
fn name_of(bytes: &[u8]) -> Option<(&str, &[u8])>
    ensures read { option_map read_piece result ≡ records.name_of bytes.now }
    ensures short { IfSome result (λ name. length name.0.now < 2 ^ 32) }
{
    let (piece, rest) = piece_of(bytes)?;
    let name = saved_name(piece)?;
    Some((name, rest))
}

/// The parts of a record that puts a text, behind its kind.
fn put_behind(bytes: &[u8]) -> Option<RecordParts<'_>>
    ensures read { option_map read_parts result ≡ option_and_then records.put_behind (records.name_of bytes.now) }
    ensures sized { IfSome result (λ parts. records.record_size (read_parts parts).value < 2 ^ 34) }
{
    let (name, behind) = name_of(bytes)?;
    let (text, rest) = piece_of(behind)?;
    Some(RecordParts {
        name,
        text: Some(text),
        rest,
    })
}

/// The parts of a record that drops a name, behind its kind.
fn drop_behind(bytes: &[u8]) -> Option<RecordParts<'_>>
    ensures read { option_map read_parts result ≡ option_and_then records.drop_behind (records.name_of bytes.now) }
    ensures sized { IfSome result (λ parts. records.record_size (read_parts parts).value < 2 ^ 34) }
{
    let (name, rest) = name_of(bytes)?;
    Some(RecordParts {
        name,
        text: None,
        rest,
    })
}

/// The parts of the record that the bytes begin with, where it is there as a whole. Its size is far below 2^64.
pub(crate) fn record_of(bytes: &[u8]) -> Option<RecordParts<'_>>
    ensures read { option_map read_parts result ≡ records.record_of bytes.now }
    ensures sized { IfSome result (λ parts. records.record_size (read_parts parts).value < 2 ^ 34) }
{
    let (kind, behind) = bytes.split_first()?;
    if *kind == PUT {
        put_behind(behind)
    } else if *kind == DROP {
        drop_behind(behind)
    } else {
        None
    }
}
