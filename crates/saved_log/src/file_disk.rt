//! Files of the system as a disk. It does not tell what is in them.
ghost use Rattle.std.specs.Prelude.{◌≡◌, ◌≤◌, [], false, IfOk, length};
ghost use Rattle.mmt_outside.specs.Faults.{Rose};

use crate::Disk;
use mmt_outside::Failed;
use std::fs::{File, OpenOptions};
use std::io;
use std::marker::Model;
use std::os::unix::fs::FileExt;
use std::path::Path;

/// The file of the system that was opened last, if one was, seen as the count of faults.
#[derive(Drop)]
pub struct FileDisk {
    rt: HostRuntime,
    file: Option<File>,
    faults: u64,
}

impl Model for FileDisk {
    ghost use Rattle.std.specs.Prelude.{ℕ};

    ghost Value = { ℕ };

    ghost view = { λ d. d.faults };
}

impl FileDisk {
    /// No file, before any call has failed.
    pub fn new(rt: HostRuntime) -> Self
        ensures { result ≡ 0 }
    {
        FileDisk {
            rt,
            file: None,
            faults: 0,
        }
    }

    fn fault(&mut self) -> Failed
        ensures later { self.old ≤ self.new }
        ensures rose { Rose self.old self.new }
    {
        self.faults = self.faults.saturating_add(1);
        Failed
    }
}

/// Makes the file, and sees to it that its folder has it on the medium.
fn make_file(rt: HostRuntime, name: &str) -> io::Result<File> {
    let file = OpenOptions::new()
        .read(true)
        .write(true)
        .create_new(true)
        .open(&rt, name)?;
    let folder = match Path::new(name).parent() {
        Some(folder) if !folder.as_str().is_empty() => File::open(&rt, folder)?,
        _ => File::open(&rt, ".")?,
    };
    folder.sync_all()?;
    Ok(file)
}

/// Opens the file, which is made where there is none. What is no file, as a folder or a pipe, is an error.
fn open_file(rt: HostRuntime, name: &str) -> io::Result<File> {
    match make_file(rt, name) {
        Err(error) if error.kind() == io::ErrorKind::AlreadyExists => {}
        made => return made,
    }
    let file = OpenOptions::new().read(true).write(true).open(&rt, name)?;
    if !file.metadata()?.is_file() {
        return Err(io::Error::from(io::ErrorKind::InvalidInput));
    }
    Ok(file)
}

fn no_file() -> io::Error {
    io::Error::from(io::ErrorKind::NotFound)
}

fn length_of(file: &Option<File>) -> io::Result<u64> {
    let Some(file) = file else {
        return Err(no_file());
    };
    Ok(file.metadata()?.len())
}

/// One read, which is made again where a signal interrupts it.
fn read_once(file: &Option<File>, at: u64, into: &mut [u8]) -> io::Result<usize>
    ensures { IfOk result (λ count. count ≤ length into.new) }
{
    let Some(file) = file else {
        return Err(no_file());
    };
    for _ in 0..u64::MAX {
        match file.read_at(into, at) {
            Err(error) if error.kind() == io::ErrorKind::Interrupted => {}
            read => return read,
        }
    }
    Err(io::Error::from(io::ErrorKind::Interrupted))
}

fn write_whole(file: &Option<File>, at: u64, piece: &[u8]) -> io::Result<()> {
    let Some(file) = file else {
        return Err(no_file());
    };
    file.write_all_at(piece, at)
}

fn sync_whole(file: &Option<File>) -> io::Result<()> {
    let Some(file) = file else {
        return Err(no_file());
    };
    file.sync_all()
}

impl Disk for FileDisk {
    ghost tells = { λ _. false };

    ghost seen = { λ _. [] };

    ghost images = { λ _ image. image ≡ [] };

    ghost moment_of = { λ _. 0 };

    ghost left_since = { λ _ _ image. image ≡ [] };

    ghost faults = { λ d. d };

    fn open(&mut self, name: &str) -> Result<(), Failed> {
        match open_file(self.rt, name) {
            Ok(file) => {
                self.file = Some(file);
                Ok(())
            }
            Err(_) => Err(self.fault()),
        }
    }

    fn len(&mut self) -> Result<u64, Failed> {
        match length_of(&self.file) {
            Ok(count) => Ok(count),
            Err(_) => Err(self.fault()),
        }
    }

    fn read_at(&mut self, at: u64, into: &mut [u8]) -> Result<usize, Failed> {
        match read_once(&self.file, at, into) {
            Ok(count) => Ok(count),
            Err(_) => Err(self.fault()),
        }
    }

    fn write_at(&mut self, at: u64, piece: &[u8]) -> Result<(), Failed> {
        match write_whole(&self.file, at, piece) {
            Ok(()) => Ok(()),
            Err(_) => Err(self.fault()),
        }
    }

    fn sync(&mut self) -> Result<(), Failed> {
        match sync_whole(&self.file) {
            Ok(()) => Ok(()),
            Err(_) => Err(self.fault()),
        }
    }

    ghost use Rattle.std.specs.Prelude.{refl};

    ghost seen_now = { λ _ told. refl };

    ghost counts_now = { λ _ moment image told le now. now };

    ghost only_now = { λ _ image told left. left };
}
