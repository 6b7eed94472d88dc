//! The edits of a file, read from gate to gate.
ghost use Rattle.std.specs.Prelude.{◌≡◌, ◌<◌, suc, [], length, IfErr, IfOk, IfSome, IsNone, OnErr};
ghost use Rattle.edit_log_meaning.specs.Log.{version_of};
ghost use Rattle.edit_log.specs.Readings.{read_edit};
ghost use Rattle.saved_log_meaning.specs.SavedFiles.{heading, file_contents};
ghost use Rattle.saved_log_laws.specs.SavedFileLaws.{IsWrong};
ghost use Rattle.saved_log.specs.Parts.{read_parts};
ghost use Rattle.saved_log.specs.Standing.{EndsAt, IsFaultOf, IsNear, IsTaken};

use crate::SaveFault;
use crate::parts::{RecordParts, record_of};
use crate::record::CLOSED;
use edit_log::{Edit, EditFault, Edited, Log};
use lf_terms::{Arc, Bytes, Memory, Name};
use std::alloc::Global;

/// The bytes that each file begins with.
pub(crate) const HEADING: &[u8; 8] = b"mmtlog1\n";

/// The edit of a record that was read.
fn edit_of(alloc: Global, parts: &RecordParts<'_>) -> Result<Edit, Memory>
    ensures { IfOk result (λ edit. read_edit edit ≡ (read_parts parts.now).value) }
{
    // it is an identifier, so that only memory can be wanting
    let Ok(name) = Name::new(alloc, parts.name) else {
        return Err(Memory);
    };
    match parts.text {
        Some(text) => {
            let text = Bytes::from_vec(text.to_vec(alloc)?);
            let text = Arc::new(alloc, text)?;
            Ok(Edit::Put { name, text })
        }
        None => Ok(Edit::Drop { name }),
    }
}

/// Makes the edit of the record that the bytes begin with, and gives the size of the record. None, and the log stays, exactly where no
/// whole record with a gate behind it stands there, or one whose edit the log does not make.
fn take_edit(alloc: Global, bytes: &[u8], log: &mut Log) -> Result<Option<usize>, Memory>
    ensures taken { IfOk result (λ taken. IfSome taken (λ size. IsTaken bytes.now log.old log.new size)) }
    ensures wrong { IfOk result (λ taken. IsNone taken → IsWrong log.old bytes.now) }
{
    let Some(parts) = record_of(bytes) else {
        return Ok(None);
    };
    if parts.rest.is_empty() {
        return Ok(None);
    }
    let edit = edit_of(alloc, &parts)?;
    match log.append(alloc, edit) {
        Ok(Edited::Made(_)) => Ok(Some(bytes.len() - parts.rest.len())),
        Ok(Edited::Same(_)) => Ok(None),
        Ok(Edited::Absent(_)) => Ok(None),
        Err(EditFault::Full) => Ok(None),
        Err(EditFault::TooLong) => Ok(None),
        Err(EditFault::TooMany) => Ok(None),
        Err(EditFault::Memory) => Err(Memory),
    }
}

/// Reads the edits of a file that is longer than its heading and a gate, and gives the place of its last gate.
pub(crate) fn read_edits(alloc: Global, bytes: &[u8], log: &mut Log) -> Result<usize, SaveFault>
    requires empty { log.old ≡ [] }
    requires long { suc (length heading) < length bytes.now }
    ensures ends { IfOk result (λ gate. EndsAt log.new gate bytes.now) }
    ensures near { IfOk result (λ gate. IsNear gate (version_of log.new)) }
    ensures fault { IfErr result (λ fault. IsFaultOf (file_contents bytes.now) fault) }
{
    if !bytes.starts_with(HEADING) {
        return Err(SaveFault::Damaged { at: 0 });
    }
    let mut gate = HEADING.len();
    while bytes[gate] != CLOSED {
        let Some(size) = take_edit(alloc, &bytes[gate + 1..], log)? else {
            return Err(SaveFault::Damaged { at: gate as u64 });
        };
        gate += 1 + size;
    }
    Ok(gate)
}
