//! How far a comment goes.
ghost use Rattle.std.specs.Prelude.{◌≡◌, ◌+◌, ◌≤◌, ◌<◌, ◌&&◌, ◌==◌, length, slice_index, MatchOption};
ghost use Rattle.twelf_lexer.specs.Scans.{Closes, StaysOpen};

/// The place behind the comment that begins before an index. None where it has no end.
pub(crate) fn comment_end(text: &[u8], at: usize) -> Option<usize>
    requires { at ≤ length text.now }
    ensures { MatchOption result (StaysOpen text.now at) (λ to. Closes text.now at to) }
{
    let mut to = at;
    let mut inner: usize = 0;
    while to + 1 < text.len() {
        if is_pair(text, to, b'%', b'{') {
            inner += 1;
            to += 2;
            continue;
        }
        if is_pair(text, to, b'}', b'%') {
            to += 2;
            if inner == 0 {
                return Some(to);
            }
            inner -= 1;
            continue;
        }
        to += 1;
    }
    None
}

/// Whether these two bytes stand at an index.
fn is_pair(text: &[u8], at: usize, first: u8, second: u8) -> bool
    requires { at + 1 < length text.now }
    ensures { result ≡ (slice_index text.now at == first && slice_index text.now (at + 1) == second) }
{
    text[at] == first && text[at + 1] == second
}
