//! One file, loaded whole or not at all.
ghost use Rattle.std.specs.Prelude.{◌≡◌, ◌≤◌, ◌^◌, [], List, ℕ, map, length, IfOk};
ghost use Rattle.run_meaning.specs.Files.{file_answer, pieces_answer};
ghost use Rattle.mmt_outside.specs.Files.{IsReadOf, IsWithinLimit};
ghost use Rattle.twelf_reader.specs.Division.{read_pieces};
ghost use Rattle.folder_load.specs.Shown.{file_of, shown_bare_fault};
ghost use Rattle.folder_load.specs.Ahead.{PiecesStand, Follows, IsTallied, IsFileOutcome};

use crate::following::{Damage, Following, Modules};
use lf_terms::{Bytes, Memory};
use mmt_outside::FileBytes;
use mmt_syntax::{FileFault, FileWord, Place, place_of};
use std::alloc::Global;
use twelf_expressions::ReadFault;
use twelf_reader::{Pieces, split};

/// The fault of a file that names no module.
fn bare_fault(alloc: Global, file: &str, place: Place, word: FileWord) -> Result<FileFault, Memory>
    ensures { IfOk result (λ fault. fault ≡ shown_bare_fault file.now place word) }
{
    let mut name = Bytes::new(alloc);
    name.extend(file.as_bytes())?;
    Ok(FileFault {
        file: name,
        place,
        word,
        about: None,
    })
}

/// The modules into which a file divides, or the fault of the first that is refused.
fn modules_of(
    alloc: Global,
    modules: &Modules,
    file: &str,
    bytes: &[u8],
    pieces: &Pieces,
) -> Result<Following, Damage>
    requires small { length bytes.now ≤ 2 ^ 26 }
    requires stand { PiecesStand (length bytes.now) (read_pieces pieces.now) }
    requires tallied { IsTallied modules.now }
    ensures follows { IfOk result (Follows modules.now) }
    ensures outcome { IsFileOutcome modules.now (file_of file.now bytes.now) result (pieces_answer (file_of file.now bytes.now) modules.now.log [] (read_pieces pieces.now)) }
{
    let mut following = Following::new(alloc);
    for piece in pieces.as_slice() {
        following.add(alloc, modules, file, bytes, piece)?;
    }
    Ok(following)
}

/// The modules of a file of at most 2^26 bytes, or its fault.
fn divided(alloc: Global, modules: &Modules, file: &str, bytes: &[u8]) -> Result<Following, Damage>
    requires small { length bytes.now ≤ 2 ^ 26 }
    requires tallied { IsTallied modules.now }
    ensures follows { IfOk result (Follows modules.now) }
    ensures outcome { IsFileOutcome modules.now (file_of file.now bytes.now) result (file_answer modules.now.log (file_of file.now bytes.now)) }
{
    match split(alloc, bytes) {
        Ok(pieces) => modules_of(alloc, modules, file, bytes, &pieces),
        Err(ReadFault::Syntax { at }) => Err(Damage::Fault(bare_fault(
            alloc,
            file,
            place_of(bytes, at),
            FileWord::Syntax,
        )?)),
        Err(ReadFault::Unsupported { at }) => Err(Damage::Fault(bare_fault(
            alloc,
            file,
            place_of(bytes, at),
            FileWord::Unsupported,
        )?)),
        Err(ReadFault::TooDeep { .. }) => unreachable!(),
        Err(ReadFault::Memory) => Err(Damage::Memory),
    }
}

/// The modules of a file, or its first fault.
pub(crate) fn file_modules(
    alloc: Global,
    modules: &Modules,
    file: &str,
    read: &FileBytes,
) -> Result<Following, Damage>
    requires within { IsWithinLimit read.now }
    requires tallied { IsTallied modules.now }
    ensures follows { IfOk result (Follows modules.now) }
    ensures outcome { (bytes : List ℕ) → IsReadOf bytes read.now → IsFileOutcome modules.now (file_of file.now bytes) result (file_answer modules.now.log (file_of file.now bytes)) }
{
    match read {
        FileBytes::Whole(bytes) => divided(alloc, modules, file, bytes.as_slice()),
        FileBytes::TooBig => {
            let first = Place { line: 1, column: 1 };
            Err(Damage::Fault(bare_fault(alloc, file, first, FileWord::TooLong)?))
        }
    }
}
