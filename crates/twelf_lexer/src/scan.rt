//! What stands at a place of a text, and how far runs and lines go.
ghost use Rattle.std.specs.Prelude.{◌≡◌, ◌≤◌, length, drop, not, ◌==◌};
ghost use Rattle.name_meaning.specs.Characters as characters;
ghost use Rattle.text_meaning.specs.Bytes.{line_feed, begins};
ghost use Rattle.twelf_lexer.specs.Scans.{IsFront};

use identifiers::is_identifier_byte;

/// Whether this byte stands at an index.
pub(crate) fn starts_with(text: &[u8], at: usize, byte: u8) -> bool
    ensures { result ≡ begins (λ b. b == byte) (drop at text.now) }
{
    if at < text.len() {
        return text[at] == byte;
    }
    false
}

/// Whether an identifier byte stands at an index.
pub(crate) fn starts_run(text: &[u8], at: usize) -> bool
    ensures { result ≡ begins characters.is_identifier_byte (drop at text.now) }
{
    if at < text.len() {
        return is_identifier_byte(text[at]);
    }
    false
}

/// Where the run of identifier bytes from an index on ends.
pub(crate) fn run_end(text: &[u8], at: usize) -> usize
    requires { at ≤ length text.now }
    ensures { IsFront characters.is_identifier_byte text.now at result }
{
    let mut to = at;
    while to < text.len() && is_identifier_byte(text[to]) {
        to += 1;
    }
    to
}

/// Where the line from an index on ends.
pub(crate) fn line_end(text: &[u8], at: usize) -> usize
    requires { at ≤ length text.now }
    ensures { IsFront (λ b. not (b == line_feed)) text.now at result }
{
    let mut to = at;
    while to < text.len() && text[to] != b'\n' {
        to += 1;
    }
    to
}
