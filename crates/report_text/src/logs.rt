//! The edits of a log.
ghost use Rattle.std.specs.Prelude.{◌≡◌, ◌++◌, IfOk, OnOk, codes};
ghost use Rattle.std.specs.Fmt.{decimal};
ghost use Rattle.printing_meaning.specs.Printed.{end_of_line};
ghost use Rattle.printing_meaning.specs.EditLines as printed;
ghost use Rattle.edit_log.specs.Readings.{read_edit};

use edit_log::{Edit, Log};
use lf_terms::{Bytes, Memory};
use std::alloc::Global;
use term_text::number;

/// `@V log`, and then a line for each edit that was made, in order: `k put N B`, with the number of bytes of the text, or
/// `k drop N`.
pub fn log_text(alloc: Global, log: &Log) -> Result<Bytes, Memory>
    ensures { IfOk result (λ text. text ≡ printed.log_text log.now) }
{
    let mut text = front(alloc, log.version())?;
    for before in 0..log.version() {
        if let Some(edit) = log.entry(before + 1) {
            entry(alloc, &mut text, before + 1, edit)?;
        }
    }
    Ok(text)
}

/// `@V log`.
fn front(alloc: Global, version: u32) -> Result<Bytes, Memory>
    ensures { IfOk result (λ text. text ≡ codes "@" ++ decimal version ++ codes " log" ++ end_of_line) }
{
    let mut text = Bytes::new(alloc);
    text.extend(b"@")?;
    number(alloc, &mut text, version as u64)?;
    text.extend(b" log")?;
    text.extend(b"\n")?;
    Ok(text)
}

/// Writes the line of the edit that made a version.
fn entry(alloc: Global, out: &mut Bytes, version: u32, edit: &Edit) -> Result<(), Memory>
    ensures { OnOk result (out.new ≡ out.old ++ printed.entry_line version (read_edit edit.now)) }
{
    number(alloc, out, version as u64)?;
    match edit {
        Edit::Put { name, text } => {
            out.extend(b" put ")?;
            out.extend(name.as_str().as_bytes())?;
            out.extend(b" ")?;
            number(alloc, out, text.get().len() as u64)?;
        }
        Edit::Drop { name } => {
            out.extend(b" drop ")?;
            out.extend(name.as_str().as_bytes())?;
        }
    }
    out.extend(b"\n")
}
