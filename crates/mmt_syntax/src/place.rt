//! Lines and columns.
ghost use Rattle.std.specs.Prelude.{◌≡◌, ◌≤◌, ◌^◌, ◌==◌, not, length};
ghost use Rattle.std.specs.List.{count_by, suffix_len};
ghost use Rattle.text_meaning.specs.Bytes.{line_feed};
ghost use Rattle.text_meaning.specs.Places.{line_at, column_at};

/// A line and a column of a text, both counted from 1. A column is counted in bytes.
#[derive(Clone, Copy, Debug, PartialEq, Eq)]
pub struct Place {
    pub line: u32,
    pub column: u32,
}

/// The place of the byte at an index of a text, or of its end: the line is 1 and one more for each line feed in front
/// of it, the column is 1 and one more for each byte behind the last of these line feeds. The text has at most 2^26
/// bytes, and the index is not past its end.
pub fn place_of(text: &[u8], at: u32) -> Place
    requires small { length text.now ≤ 2 ^ 26 }
    requires within { at ≤ length text.now }
    ensures line { result.line ≡ line_at text.now at }
    ensures column { result.column ≡ column_at text.now at }
{
    let front = &text[..at as usize];
    Place {
        line: feeds(front) as u32 + 1,
        column: behind_feed(front) as u32 + 1,
    }
}

/// How many line feeds there are.
fn feeds(bytes: &[u8]) -> usize
    ensures count { result ≡ count_by (λ b. b == line_feed) bytes.now }
    ensures within { result ≤ length bytes.now }
{
    bytes.iter().filter(|byte| **byte == b'\n').count()
}

/// How many bytes stand behind the last line feed.
fn behind_feed(bytes: &[u8]) -> usize
    ensures count { result ≡ suffix_len (λ b. not (b == line_feed)) bytes.now }
    ensures within { result ≤ length bytes.now }
{
    bytes
        .iter()
        .rev()
        .take_while(|byte| **byte != b'\n')
        .count()
}
