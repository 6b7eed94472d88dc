//! The folders of the system. They do not tell what files there are.
ghost use Rattle.std.specs.Prelude.{◌≡◌, ◌≤◌, None, IfOk};
ghost use Rattle.mmt_outside.specs.Faults.{Rose};
ghost use Rattle.mmt_outside.specs.Files.{IsWithinLimit};
ghost use Rattle.mmt_outside.specs.declared.fault.OutFault.TheVariants.{Failed, Memory};

use crate::folder::FILE_LIMIT;
use crate::{FileBytes, Folder, OutFault};
use lf_terms::{Bytes, Texts};
use std::alloc::Global;
use std::fs::File;
use std::io::Read;
use std::marker::Model;
use std::path::Path;
use std::rt::Files;
use std::{fs, io, str};

/// The folders of the system, seen as their count of faults.
#[derive(Drop)]
pub struct DiskFolder {
    rt: HostRuntime,
    faults: u64,
}

impl Model for DiskFolder {
    ghost use Rattle.std.specs.Prelude.{ℕ};

    ghost Value = { ℕ };

    ghost view = { λ f. f.faults };
}

impl DiskFolder {
    /// The folders, before any call has failed.
    pub fn new(rt: HostRuntime) -> Self
        ensures { result ≡ 0 }
    {
        DiskFolder { rt, faults: 0 }
    }

    /// What a call answers at an error of the system. Want of memory is no fault of the folder.
    fn fault(&mut self, error: &io::Error) -> OutFault
        ensures later { self.old ≤ self.new }
        ensures rose { result ≡ Failed → Rose self.old self.new }
        ensures wants { result ≡ Memory → self.new ≡ self.old }
    {
        if error.kind() == io::ErrorKind::OutOfMemory {
            return OutFault::Memory;
        }
        self.faults = self.faults.saturating_add(1);
        OutFault::Failed
    }
}

/// The name under which what stands so in a folder is read. Names that begin with a dot have none, as `*.elf` in a shell leaves them
/// out. A name that ends in `.elf` is an error where it is not UTF-8, or has a byte below 32, which would forge lines where it is
/// printed; of another one that is not UTF-8 nothing is read.
fn readable(listed: &[u8]) -> io::Result<Option<&str>> {
    if listed.is_empty() || listed.starts_with(b".") {
        return Ok(None);
    }
    let is_source = listed.ends_with(b".elf");
    match str::from_utf8(listed) {
        Ok(_) if is_source && listed.iter().any(|byte| *byte < b' ') => Err(no_name()),
        Ok(name) => Ok(Some(name)),
        Err(_) if is_source => Err(no_name()),
        Err(_) => Ok(None),
    }
}

fn no_name() -> io::Error {
    io::Error::from(io::ErrorKind::InvalidFilename)
}

/// Whether what has this name is no folder, pipe, socket or device, links followed. What cannot be asked about is taken for a file, so
/// that reading it tells why.
fn is_file(rt: HostRuntime, alloc: Global, folder: &str, name: &str) -> io::Result<bool> {
    let path = Path::new(folder).join(alloc, name)?;
    match fs::metadata(&rt, path.as_path()) {
        Ok(found) => Ok(found.is_file()),
        Err(error) if error.kind() == io::ErrorKind::OutOfMemory => Err(error),
        Err(_) => Ok(true),
    }
}

/// What stands in a folder: names, with a zero byte behind each.
fn listing(rt: HostRuntime, alloc: Global, folder: &str) -> io::Result<Vec<u8>> {
    let mut path = String::from_str(alloc, folder)?;
    // with a slash at its end a link to a folder is followed
    if !folder.is_empty() && !folder.ends_with('/') {
        path.push('/')?;
    }
    let mut entries = rt.open_dir(path.as_str())?;
    let mut listed = Vec::new(alloc);
    // a read gives whole names, and so needs room for one
    let mut piece = [0; 4096];
    for _ in 0..u64::MAX {
        let count = entries.read(&mut piece)?;
        if count == 0 {
            break;
        }
        listed.extend_from_slice(&piece[..count])?;
    }
    Ok(listed)
}

/// The names of the files in a folder.
fn names_of(rt: HostRuntime, alloc: Global, folder: &str) -> io::Result<Texts> {
    let listed = listing(rt, alloc, folder)?;
    let mut names = Vec::new(alloc);
    for entry in listed.split(|byte| *byte == 0) {
        if let Some(name) = readable(entry)? {
            if is_file(rt, alloc, folder, name)? {
                names.push(String::from_str(alloc, name)?)?;
            }
        }
    }
    Ok(Texts::from_vec(names))
}

/// The bytes of a file, of which no more are read than show that there are too many.
fn bytes_of(rt: HostRuntime, alloc: Global, folder: &str, name: &str) -> io::Result<FileBytes>
    ensures { IfOk result IsWithinLimit }
{
    let path = Path::new(folder).join(alloc, name)?;
    let file = File::open(&rt, path.as_path())?;
    let mut bytes = Vec::new(alloc);
    let _ = file.take(FILE_LIMIT as u64 + 1).read_to_end(&mut bytes)?;
    if bytes.len() > FILE_LIMIT {
        return Ok(FileBytes::TooBig);
    }
    Ok(FileBytes::Whole(Bytes::from_vec(bytes)))
}

impl Folder for DiskFolder {
    ghost files = { λ _. None };

    ghost faults = { λ f. f };

    fn list(&mut self, alloc: Global, folder: &str) -> Result<Texts, OutFault> {
        match names_of(self.rt, alloc, folder) {
            Ok(names) => Ok(names),
            Err(error) => Err(self.fault(&error)),
        }
    }

    fn read_file(
        &mut self,
        alloc: Global,
        folder: &str,
        name: &str,
    ) -> Result<FileBytes, OutFault> {
        match bytes_of(self.rt, alloc, folder, name) {
            Ok(read) => Ok(read),
            Err(error) => Err(self.fault(&error)),
        }
    }
}
