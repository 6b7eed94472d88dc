//! The record of an edit, as it is written.
ghost use Rattle.std.specs.Prelude.{◌≡◌, ◌<◌, ◌^◌, ◌++◌, ◌∷◌, [], length, IfOk, OnOk};
ghost use Rattle.edit_log.specs.Readings.{read_edit};
ghost use Rattle.saved_log_meaning.specs.Records.{piece_bytes, record_bytes};
ghost use Rattle.saved_log_laws.specs.RecordLaws.{FitsRecord};

use crate::parts::{DROP, PUT};
use edit_log::Edit;
use lf_terms::Memory;
use std::alloc::Global;

/// A gate that ends the log.
pub(crate) const CLOSED: u8 = 0;

/// Adds a piece: its length in four bytes, the least one first, and then its own bytes.
fn add_piece(bytes: &mut Vec<u8>, piece: &[u8]) -> Result<(), Memory>
    requires { length piece.now < 2 ^ 32 }
    ensures { OnOk result (bytes.new.items ≡ bytes.old.items ++ piece_bytes piece.now) }
{
    let size = (piece.len() as u32).to_le_bytes();
    bytes.extend_from_slice(&size)?;
    bytes.extend_from_slice(piece)?;
    Ok(())
}

/// Adds the record of an edit.
fn add_record(bytes: &mut Vec<u8>, edit: &Edit) -> Result<(), Memory>
    requires { FitsRecord (read_edit edit.now) }
    ensures { OnOk result (bytes.new.items ≡ bytes.old.items ++ record_bytes (read_edit edit.now)) }
{
    match edit {
        Edit::Put { name, text } => {
            bytes.push(PUT)?;
            add_piece(bytes, name.as_str().as_bytes())?;
            add_piece(bytes, text.get().as_slice())
        }
        Edit::Drop { name } => {
            bytes.push(DROP)?;
            add_piece(bytes, name.as_str().as_bytes())
        }
    }
}

/// The record of an edit, with a closed gate behind it.
pub(crate) fn gated_record(alloc: Global, edit: &Edit) -> Result<Vec<u8>, Memory>
    requires { FitsRecord (read_edit edit.now) }
    ensures { IfOk result (λ piece. piece.items ≡ record_bytes (read_edit edit.now) ++ 0 ∷ []) }
{
    let mut piece = Vec::with_capacity(alloc, edit.name().as_str().len() + edit.size() + 10)?;
    add_record(&mut piece, edit)?;
    piece.push(CLOSED)?;
    Ok(piece)
}
