//! The files of a folder, loaded one after another.
ghost use Rattle.std.specs.Prelude.{◌≡◌, ◌+◌, ◌++◌, [], List, ℕ, map, OnOk};
ghost use Rattle.edit_log_meaning.specs.Append.{appended_all};
ghost use Rattle.run_meaning.specs.Files.{load_file};
ghost use Rattle.run_meaning.specs.Files as meant;
ghost use Rattle.edit_log.specs.Readings.{read_edit};
ghost use Rattle.mmt_outside.specs.Files.{IsReadOf, IsWithinLimit};
ghost use Rattle.folder_load.specs.Shown.{file_of};
ghost use Rattle.folder_load.specs.Ahead.{ahead, Follows, IsTallied};
ghost use Rattle.folder_load.specs.Loads.{IsLoadedSoFar, nothing_loaded};

use crate::file::file_modules;
use crate::following::{Damage, Following, Modules};
use edit_log::{Edit, Log};
use lf_terms::Memory;
use mmt_outside::FileBytes;
use mmt_syntax::{FileFaults, Origins};
use std::alloc::Global;

/// What was loaded so far.
#[derive(Drop)]
pub(crate) struct Loading {
    pub(crate) modules: Modules,
    pub(crate) origins: Origins,
    pub(crate) faults: FileFaults,
}

/// Makes edits, one after another.
fn append_all(alloc: Global, log: &mut Log, edits: Vec<Edit>) -> Result<(), Memory>
    ensures { OnOk result (log.new ≡ appended_all log.old (map read_edit edits.items)) }
{
    for edit in edits {
        if log.append(alloc, edit).is_err() {
            return Err(Memory);
        }
    }
    Ok(())
}

/// Adds origins at the end.
fn add_all(origins: &mut Origins, more: Origins) -> Result<(), Memory>
    ensures { OnOk result (origins.new ≡ origins.old ++ more) }
{
    for origin in more.into_vec() {
        origins.add(origin)?;
    }
    Ok(())
}

impl Loading {
    /// Nothing is loaded.
    pub(crate) fn new(alloc: Global) -> Self
        ensures tallied { IsTallied result.modules }
        ensures nothing { IsLoadedSoFar result nothing_loaded }
    {
        Loading {
            modules: Modules {
                log: Log::new(alloc),
                size: 0,
            },
            origins: Origins::new(alloc),
            faults: FileFaults::new(alloc),
        }
    }

    /// Puts the modules of a file behind those that were loaded.
    fn take(&mut self, alloc: Global, following: Following) -> Result<(), Memory>
        requires { Follows self.old.modules following }
        ensures log { OnOk result (self.new.modules.log ≡ appended_all self.old.modules.log (map read_edit following.edits.items)) }
        ensures tallied { OnOk result (IsTallied self.new.modules) }
        ensures origins { OnOk result (self.new.origins ≡ self.old.origins ++ following.origins) }
        ensures faults { self.new.faults ≡ self.old.faults }
    {
        self.modules.size += following.size;
        append_all(alloc, &mut self.modules.log, following.edits)?;
        add_all(&mut self.origins, following.origins)
    }

    /// Loads one file more, or notes its fault.
    pub(crate) fn add_file(
        &mut self,
        alloc: Global,
        file: &str,
        read: &FileBytes,
    ) -> Result<(), Memory>
        requires within { IsWithinLimit read.now }
        requires tallied { IsTallied self.old.modules }
        ensures tallied { OnOk result (IsTallied self.new.modules) }
        ensures loads { OnOk result ((bytes : List ℕ) (before : meant.Loading) → IsReadOf bytes read.now → IsLoadedSoFar self.old before → IsLoadedSoFar self.new (load_file before (file_of file.now bytes))) }
    {
        match file_modules(alloc, &self.modules, file, read) {
            Ok(following) => self.take(alloc, following),
            Err(Damage::Fault(fault)) => self.faults.add(fault),
            Err(Damage::Memory) => Err(Memory),
        }
    }
}
