//! The line that answers an edit.
ghost use Rattle.std.specs.Prelude.{◌≡◌, IfOk};
ghost use Rattle.printing_meaning.specs.EditLines as printed;

use lf_terms::{Bytes, Memory, Name};
use std::alloc::Global;
use term_text::number;

/// `@V WORD N`: the word of an edit's answer, and the edited name, at a version.
pub fn edit_line(alloc: Global, word: &str, name: &Name, version: u32) -> Result<Bytes, Memory>
    ensures { IfOk result (λ line. line ≡ printed.edit_line word.now name.now version) }
{
    let mut line = Bytes::new(alloc);
    line.extend(b"@")?;
    number(alloc, &mut line, version as u64)?;
    line.extend(b" ")?;
    line.extend(word.as_bytes())?;
    line.extend(b" ")?;
    line.extend(name.as_str().as_bytes())?;
    line.extend(b"\n")?;
    Ok(line)
}
