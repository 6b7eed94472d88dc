//! What is printed of a folder.
ghost use Rattle.std.specs.Prelude.{◌≡◌, IfOk};
ghost use Rattle.folder_front.specs.Sheets.{end_of, has_refused, rows_of, sheet_of};

use crate::tally::Tally;
use edit_log::Log;
use folder_load::Loaded;
use lf_terms::Memory;
use mmt_syntax::{FileFaults, Origin, Origins};
use name_table::NameTable;
use run_status::Status;
use std::alloc::Global;

/// The log of the modules that were loaded, where each came from, by its name, the faults of the files that were not loaded, and
/// how many files there are.
#[derive(Drop)]
pub(crate) struct Sheet {
    pub(crate) log: Log,
    pub(crate) origins: NameTable<Origin>,
    pub(crate) faults: FileFaults,
    pub(crate) files: u32,
}

/// Origins by the names of the modules.
fn by_name(alloc: Global, origins: Origins) -> Result<NameTable<Origin>, Memory>
    ensures { IfOk result (λ rows. rows ≡ rows_of origins) }
{
    let mut rows = NameTable::new(alloc);
    for origin in origins.into_vec() {
        let name = origin.name.copy(alloc)?;
        if rows.insert(name, origin).is_err() {
            return Err(Memory);
        }
    }
    Ok(rows)
}

impl Sheet {
    /// What is printed of what was loaded. The log is that of the board.
    pub(crate) fn new(alloc: Global, log: Log, loaded: Loaded) -> Result<Sheet, Memory>
        ensures { IfOk result (λ sheet. sheet ≡ sheet_of log loaded) }
    {
        Ok(Sheet {
            log,
            origins: by_name(alloc, loaded.origins)?,
            faults: loaded.faults,
            files: loaded.files,
        })
    }

    /// The status of a check that has printed all.
    pub(crate) fn status(&self, tally: Tally) -> Status
        ensures { result ≡ end_of (has_refused self.now tally) }
    {
        if tally.refused == 0 && self.faults.as_slice().is_empty() {
            Status::Done
        } else {
            Status::Refused
        }
    }
}
