//! A folder of files.
ghost use Rattle.std.specs.Prelude.{◌≡◌, ◌+◌, ◌-◌, ◌^◌, min, [], None, map, IfOk, IsOkAnd, IfSome, IsSome, IsErrOf, ℕ};
ghost use Rattle.std.specs.String.{string_bytes};
ghost use Rattle.std.specs.Option.{ForSome};
ghost use Rattle.std.specs.declared.option.Option.{Option};
ghost use Rattle.mmt_outside.specs.Faults.{HasCauseOrNoMemory};

use crate::OutFault;
use lf_terms::{Bytes, Texts};
use std::alloc::Global;
use std::marker::Model;

/// The greatest number of bytes of a file that is read.
pub(crate) const FILE_LIMIT: usize = 1 << 26;

/// What was read of a file: all of it, or that it has more than 2^26 bytes.
#[derive(Debug, Drop)]
pub enum FileBytes {
    Whole(Bytes),
    TooBig,
}

/// Folders of files, each told or not.
pub trait Folder {
    ghost use Rattle.mmt_outside.specs.Files.{Files, IsListing, IsReadOf, IsWithinLimit};

    /// The files, where the folder tells them.
    ghost files: { Self → Option Files };

    /// How many calls have failed. It never falls, and want of memory leaves it.
    ghost faults: { Self → ℕ };

    /// The names of the files in a folder, each once, in any order.
    fn list(&mut self, alloc: Global, folder: &str) -> Result<Texts, OutFault>
        ensures names { IfOk result (λ names. IfSome (files self.old) (λ told. IsListing told folder.now (map string_bytes names))) }
        ensures same { files self.new ≡ files self.old }
        ensures cause { HasCauseOrNoMemory (faults self.old) (faults self.new) result }
        ensures wants { IsErrOf result OutFault.Memory → faults self.new ≡ faults self.old };

    /// The bytes of a file. Where the files are told, the folder has to have one of that name.
    fn read_file(&mut self, alloc: Global, folder: &str, name: &str) -> Result<FileBytes, OutFault>
        requires { ForSome (files self.old) (λ map. IsSome (map folder.now name.now)) }
        ensures bytes { IfOk result (λ read. IfSome (files self.old) (λ map. IfSome (map folder.now name.now) (λ bytes. IsReadOf bytes read))) }

        // Told or not.
        ensures within { IfOk result IsWithinLimit }
        ensures same { files self.new ≡ files self.old }
        ensures cause { HasCauseOrNoMemory (faults self.old) (faults self.new) result }
        ensures wants { IsErrOf result OutFault.Memory → faults self.new ≡ faults self.old };
}

/// No folder at all. It lists no names, and every file is a fault. It does not tell what files there are.
/// It is seen as its count of faults.
#[derive(Debug, Drop)]
pub struct NoFolder {
    faults: u64,
}

impl Model for NoFolder {
    ghost Value = { ℕ };

    ghost view = { λ folder. folder.faults };
}

impl NoFolder {
    /// The folder, before any call has failed.
    pub fn new() -> Self
        ensures { result ≡ 0 }
    {
        NoFolder { faults: 0 }
    }
}

impl Folder for NoFolder {
    ghost use Rattle.mmt_outside.specs.Files.{IsWithinLimit};

    ghost files = { λ _. None };

    ghost faults = { λ folder. folder };

    fn list(&mut self, alloc: Global, folder: &str) -> Result<Texts, OutFault>
        ensures none { IsOkAnd result (λ names. names ≡ []) }
        ensures same { self.new ≡ self.old }
    {
        Ok(Texts::new(alloc))
    }

    fn read_file(&mut self, alloc: Global, folder: &str, name: &str) -> Result<FileBytes, OutFault>
        ensures failed { IsErrOf result OutFault.Failed }
        ensures count { self.new ≡ min (self.old + 1) (2 ^ 64 - 1) }
        ensures within { IfOk result IsWithinLimit }
        ensures cause { HasCauseOrNoMemory self.old self.new result }
        ensures wants { IsErrOf result OutFault.Memory → self.new ≡ self.old }
    {
        self.faults = self.faults.saturating_add(1);
        Err(OutFault::Failed)
    }
}
