//! The lines of a checked folder.
ghost use Rattle.std.specs.Prelude.{◌≡◌, ◌++◌, IfOk, OnOk, codes};
ghost use Rattle.std.specs.Option.{option_copied};
ghost use Rattle.printing_meaning.specs.FolderLines as printed;
ghost use Rattle.report_text.specs.FileWords.{counted_place, fault_text, read_file_word};

use lf_terms::{Bytes, Memory, Name};
use mmt_syntax::{FileFault, FileWord, Place};
use std::alloc::Global;
use term_text::number;

/// `FILE refused L:C WORD`, and the name of the module that the fault is about, where there is one.
pub fn file_line(alloc: Global, fault: &FileFault) -> Result<Bytes, Memory>
    ensures { IfOk result (λ line. line ≡ fault_text fault.now) }
{
    let mut line = Bytes::new(alloc);
    line.extend(fault.file.as_slice())?;
    line.extend(b" refused ")?;
    place(alloc, &mut line, fault.place)?;
    line.extend(b" ")?;
    line.extend(word(fault.word))?;
    about(&mut line, fault.about.as_ref())?;
    line.extend(b"\n")?;
    Ok(line)
}

/// Writes `L:C`.
pub(crate) fn place(alloc: Global, out: &mut Bytes, place: Place) -> Result<(), Memory>
    ensures { OnOk result (out.new ≡ out.old ++ counted_place place) }
{
    number(alloc, out, place.line as u64)?;
    out.extend(b":")?;
    number(alloc, out, place.column as u64)
}

/// The word of a file's fault.
fn word(word: FileWord) -> &'static [u8]
    ensures { result.now ≡ printed.file_word (read_file_word word) }
{
    match word {
        FileWord::TooLong => b"too-long",
        FileWord::Syntax => b"syntax",
        FileWord::Unsupported => b"unsupported",
        FileWord::DuplicateName => b"duplicate-name",
        FileWord::TooMany => b"too-many",
        FileWord::Full => b"full",
    }
}

/// Writes the name of a module behind a space, where there is one.
fn about(out: &mut Bytes, name: Option<&Name>) -> Result<(), Memory>
    ensures { OnOk result (out.new ≡ out.old ++ printed.about_text (option_copied name.entry)) }
{
    match name {
        Some(name) => {
            out.extend(b" ")?;
            out.extend(name.as_str().as_bytes())
        }
        None => Ok(()),
    }
}

/// `files F modules M accepted A refused R`.
pub fn files_line(
    alloc: Global,
    files: u32,
    modules: u32,
    accepted: u32,
    refused: u32,
) -> Result<Bytes, Memory>
    ensures { IfOk result (λ line. line ≡ printed.files_line files modules accepted refused) }
{
    let mut line = Bytes::new(alloc);
    line.extend(b"files ")?;
    number(alloc, &mut line, files as u64)?;
    line.extend(b" modules ")?;
    number(alloc, &mut line, modules as u64)?;
    line.extend(b" accepted ")?;
    number(alloc, &mut line, accepted as u64)?;
    line.extend(b" refused ")?;
    number(alloc, &mut line, refused as u64)?;
    line.extend(b"\n")?;
    Ok(line)
}
