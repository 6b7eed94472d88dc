//! The line of a fault of a script.
ghost use Rattle.std.specs.Prelude.{◌≡◌, IfOk, if◌then◌else◌};
ghost use Rattle.printing_meaning.specs.Printed.{bad_line, unended_line};

use lf_terms::{Bytes, Memory};
use std::alloc::Global;
use term_text::number;

/// `line L: unended text` or `line L: bad command`: the last line of a script that is not read to its end, the line being counted
/// from 1.
pub fn fault_line(alloc: Global, line: u64, unended: bool) -> Result<Bytes, Memory>
    ensures { IfOk result (λ text. text ≡ (if unended then unended_line line else bad_line line)) }
{
    let mut text = Bytes::new(alloc);
    text.extend(b"line ")?;
    number(alloc, &mut text, line)?;
    if unended {
        text.extend(b": unended text")?;
    } else {
        text.extend(b": bad command")?;
    }
    text.extend(b"\n")?;
    Ok(text)
}
