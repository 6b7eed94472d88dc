//! The files of a folder, in byte order of their names.
ghost use Rattle.std.specs.Prelude.{◌≡◌, map, IfOk, IfSome, IsSome, OnOk};
ghost use Rattle.std.specs.Option.{ForSome};
ghost use Rattle.std.specs.String.{string_bytes};
ghost use Rattle.mmt_outside.specs.Faults.{HasCauseOrNoMemory};
ghost use Rattle.run_meaning.specs.Files as meant;
ghost use Rattle.run_meaning.specs.Files.{load_file};
ghost use Rattle.folder_load.specs.Shown.{file_of};
ghost use Rattle.folder_load.specs.Ahead.{IsTallied};
ghost use Rattle.folder_load.specs.Loads.{is_module_name, AreInOrder, AreModuleNames, IsLoadedSoFar, LoadsFolder};

use crate::Loaded;
use crate::loading::Loading;
use mmt_outside::{Folder, OutFault};
use std::alloc::Global;

/// Whether a file of this name is loaded.
fn is_module_file(name: &str) -> bool
    ensures { result ≡ is_module_name name.now }
{
    name.as_bytes().ends_with(b".elf")
}

/// Of these names those of the files that are loaded, in byte order.
fn in_order(mut names: Vec<String>) -> Vec<String>
    ensures { AreInOrder (map string_bytes names.items) (map string_bytes result.items) }
{
    names.retain(|name| is_module_file(name));
    names.sort_unstable();
    names
}

/// The names of the files of a folder that are loaded, in byte order.
fn module_names<F: Folder>(
    alloc: Global,
    folder: &mut F,
    path: &str,
) -> Result<Vec<String>, OutFault>
    ensures names { IfOk result (λ names. IfSome (F.files folder.old) (λ told. AreModuleNames told path.now (map string_bytes names.items))) }
    ensures same { F.files folder.new ≡ F.files folder.old }
    ensures cause { HasCauseOrNoMemory (F.faults folder.old) (F.faults folder.new) result }
{
    let names = folder.list(alloc, path)?;
    Ok(in_order(names.into_vec()))
}

/// Loads one file more of a folder.
fn load_named<F: Folder>(
    alloc: Global,
    folder: &mut F,
    path: &str,
    name: &str,
    loading: &mut Loading,
) -> Result<(), OutFault>
    requires there { ForSome (F.files folder.old) (λ told. IsSome (told path.now name.now)) }
    requires tallied { IsTallied loading.old.modules }
    ensures tallied { OnOk result (IsTallied loading.new.modules) }
    ensures loads { OnOk result (IfSome (F.files folder.old) (λ told. IfSome (told path.now name.now) (λ bytes. (before : meant.Loading) → IsLoadedSoFar loading.old before → IsLoadedSoFar loading.new (load_file before (file_of name.now bytes))))) }
    ensures same { F.files folder.new ≡ F.files folder.old }
    ensures cause { HasCauseOrNoMemory (F.faults folder.old) (F.faults folder.new) result }
{
    let read = folder.read_file(alloc, path, name)?;
    loading.add_file(alloc, name, &read)?;
    Ok(())
}

/// Loads the files of a folder whose names end in `.elf`, in byte order of their names, and each whole or not at all. A file
/// that is damaged is a fault among those of the files, and no error. `Failed` is an error of the folder, whose count
/// rose; `Memory` is want of memory, as which more files than a `u32` counts are answered too.
pub fn load<F: Folder>(alloc: Global, folder: &mut F, path: &str) -> Result<Loaded, OutFault>
    // Where the folder tells its files.
    ensures loaded { IfOk result (λ loaded. IfSome (F.files folder.old) (λ told. LoadsFolder told path.now loaded)) }
    ensures same { F.files folder.new ≡ F.files folder.old }
    ensures cause { HasCauseOrNoMemory (F.faults folder.old) (F.faults folder.new) result }
{
    let names = module_names(alloc, folder, path)?;
    let Ok(files) = u32::try_from(names.len()) else {
        return Err(OutFault::Memory);
    };
    let mut loading = Loading::new(alloc);
    for name in &names {
        load_named(alloc, folder, path, name, &mut loading)?;
    }
    Ok(Loaded {
        log: loading.modules.log,
        origins: loading.origins,
        faults: loading.faults,
        files,
    })
}
