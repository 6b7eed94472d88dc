//! A folder of files in memory.
ghost use Rattle.std.specs.Prelude.{◌≡◌, ◌↔◌, ◌≤◌, [], Some, map, IfOk, IfSome, IsErrOf, IsSome, IsTrue};
ghost use Rattle.std.specs.List.{list_any};
ghost use Rattle.std.specs.Option.{ForSome, option_copied};
ghost use Rattle.std.specs.Str.{bytes_eq};
ghost use Rattle.std.specs.String.{string_bytes};
ghost use Rattle.mmt_outside.specs.Faults.{HasCauseOrNoMemory};
ghost use Rattle.mmt_outside.specs.Files.{IsListing, IsReadOf, IsWithinLimit};
ghost use Rattle.mmt_outside.specs.Folders.{read_file, read_files, has_place, bytes_of, adds_name, names_in};
ghost use Rattle.mmt_outside.specs.Memory.{no_calls, next_fails, after_call};

use crate::calls::CallCount;
use crate::folder::FILE_LIMIT;
use crate::{FileBytes, Folder, Inputs64, OutFault};
use lf_terms::{Bytes, Memory, Sequence, Texts};
use std::alloc::Global;
use std::marker::Model;

/// A file: the name of its folder, its own name and its bytes.
type MemFile = (String, String, Bytes);

/// Files: the name of a folder, the name of a file in it, and the file's bytes.
pub type MemFiles = Sequence<(String, String, Bytes)>;

/// Files in memory, and a list of the calls that fail. Of two files with one folder and one name the first counts. It
/// is seen as its files and its calls.
#[derive(Debug, Drop)]
pub struct MemFolder {
    files: MemFiles,
    calls: CallCount,
}

impl Model for MemFolder {
    ghost use Rattle.mmt_outside.specs.Folders.{FolderState, read_files};

    ghost Value = { FolderState };

    ghost view = { λ f. record { files = read_files f.files; calls = f.calls } };
}

impl MemFolder {
    /// A folder of these files. The call with each number of the list fails, from 1 on.
    pub fn new(files: MemFiles, fails: Inputs64) -> Self
        ensures files { result.files ≡ read_files files }
        ensures calls { result.calls ≡ no_calls fails }
    {
        MemFolder {
            files,
            calls: CallCount::new(fails),
        }
    }
}

/// Whether the file has this folder and this name.
fn is_at(file: &MemFile, folder: &str, name: &str) -> bool
    ensures { result ≡ has_place folder.now name.now (read_file file.now) }
{
    file.0.as_str() == folder && file.1.as_str() == name
}

/// The bytes of the first file with this folder and this name.
fn first_of<'a>(files: &'a MemFiles, folder: &str, name: &str) -> Option<&'a Bytes>
    ensures { option_copied result ≡ bytes_of (read_files files.now) folder.now name.now }
{
    for file in files.as_slice() {
        if is_at(file, folder, name) {
            return Some(&file.2);
        }
    }
    None
}

/// Whether the name is one of these.
fn has_name(names: &Texts, name: &str) -> bool
    ensures { result ≡ list_any (λ own. bytes_eq (string_bytes own) name.now) names.now }
{
    names.as_slice().iter().any(|own| own.as_str() == name)
}

/// Whether the file is in the folder, and its name is not one of these.
fn is_further(file: &MemFile, folder: &str, names: &Texts) -> bool
    ensures { result ≡ adds_name folder.now (map string_bytes names.now) (read_file file.now) }
{
    file.0.as_str() == folder && !has_name(names, file.1.as_str())
}

/// The names of the files in a folder, each once.
fn names_of(alloc: Global, files: &MemFiles, folder: &str) -> Result<Texts, Memory>
    ensures { IfOk result (λ names. map string_bytes names ≡ names_in folder.now (read_files files.now)) }
{
    let mut names = Texts::new(alloc);
    for file in files.as_slice() {
        if is_further(file, folder, &names) {
            names.add(String::from_str(alloc, file.1.as_str())?)?;
        }
    }
    Ok(names)
}

/// The bytes of a file, copied, where there are not too many.
fn whole(alloc: Global, bytes: &[u8]) -> Result<FileBytes, Memory>
    ensures read { IfOk result (IsReadOf bytes.now) }
    ensures within { IfOk result IsWithinLimit }
{
    if bytes.len() > FILE_LIMIT {
        return Ok(FileBytes::TooBig);
    }
    let mut copied = Bytes::new(alloc);
    copied.extend(bytes)?;
    Ok(FileBytes::Whole(copied))
}

impl Folder for MemFolder {
    ghost use Rattle.mmt_outside.specs.Folders.{bytes_of};

    ghost files = { λ f. Some (bytes_of f.files) };

    ghost faults = { λ f. f.calls.faults };

    fn list(&mut self, alloc: Global, folder: &str) -> Result<Texts, OutFault>
        // It fails exactly where the list of calls says so.
        ensures fails { IsErrOf result OutFault.Failed ↔ IsTrue (next_fails self.old.calls) }
        ensures calls { self.new.calls ≡ after_call self.old.calls }
        ensures steady { self.old.calls.fails ≡ [] → self.new.calls.faults ≡ self.old.calls.faults }
        ensures kept { self.new.files ≡ self.old.files }

        // What the trait says.
        ensures names { IfOk result (λ names. IsListing (bytes_of self.old.files) folder.now (map string_bytes names)) }
        ensures same { Some (bytes_of self.new.files) ≡ Some (bytes_of self.old.files) }
        ensures cause { HasCauseOrNoMemory self.old.calls.faults self.new.calls.faults result }
        ensures wants { IsErrOf result OutFault.Memory → self.new.calls.faults ≡ self.old.calls.faults }
    {
        self.calls.next()?;
        let names = names_of(alloc, &self.files, folder)?;
        Ok(names)
    }

    fn read_file(&mut self, alloc: Global, folder: &str, name: &str) -> Result<FileBytes, OutFault>
        requires { IsSome (bytes_of self.old.files folder.now name.now) }

        // It fails exactly where the list of calls says so.
        ensures fails { IsErrOf result OutFault.Failed ↔ IsTrue (next_fails self.old.calls) }
        ensures calls { self.new.calls ≡ after_call self.old.calls }
        ensures steady { self.old.calls.fails ≡ [] → self.new.calls.faults ≡ self.old.calls.faults }
        ensures kept { self.new.files ≡ self.old.files }

        // What the trait says.
        ensures bytes { IfOk result (λ read. IfSome (bytes_of self.old.files folder.now name.now) (λ bytes. IsReadOf bytes read)) }
        ensures within { IfOk result IsWithinLimit }
        ensures same { Some (bytes_of self.new.files) ≡ Some (bytes_of self.old.files) }
        ensures cause { HasCauseOrNoMemory self.old.calls.faults self.new.calls.faults result }
        ensures wants { IsErrOf result OutFault.Memory → self.new.calls.faults ≡ self.old.calls.faults }
    {
        self.calls.next()?;
        match first_of(&self.files, folder, name) {
            Some(bytes) => Ok(whole(alloc, bytes.as_slice())?),
            None => unreachable!(),
        }
    }
}
