//! The calls on the disk with which a saved log is opened.
ghost use Rattle.std.specs.Prelude.{◌≡◌, ◌≤◌, ◌++◌, ◌∷◌, [], length, IfOk, IsTrue, OnOk};
ghost use Rattle.saved_log_meaning.specs.SavedFiles.{heading};
ghost use Rattle.saved_log_meaning.specs.Disks.{LeavesOnly, Only};
ghost use Rattle.mmt_outside.specs.Faults.{HasCause, HasCauseOrNoMemory};
ghost use Rattle.saved_log.specs.DiskCalls.{OnlyReads};
ghost use Rattle.saved_log.specs.Standing.{IsShort};

use crate::Disk;
use crate::reading::read_all;
use mmt_outside::{Failed, OutFault};
use std::alloc::Global;

/// A file with no edits: its heading and a closed gate.
pub(crate) const NEW_FILE: &[u8; 9] = b"mmtlog1\n\0";

/// Opens the file of that name and sees to it that what is read of it is on the disk.
pub(crate) fn open_file<D: Disk>(
    alloc: Global,
    disk: &mut D,
    name: &str,
) -> Result<Vec<u8>, OutFault>
    ensures bytes { IsTrue (D.tells disk.old) → IfOk result (λ bytes. bytes.items ≡ D.seen disk.old) }
    ensures durable { IsTrue (D.tells disk.old) → OnOk result (Only (D.seen disk.new) (D.images disk.new)) }
    ensures tells { D.tells disk.new ≡ D.tells disk.old }
    ensures reads { IsTrue (D.tells disk.old) → OnlyReads D.seen D.images D.moment_of D.left_since disk.old disk.new }
    ensures cause { HasCauseOrNoMemory (D.faults disk.old) (D.faults disk.new) result }
{
    disk.open(name)?;
    disk.sync()?;
    read_all(alloc, disk)
}

/// Puts the file with no edits in the place of one that is no longer.
pub(crate) fn write_new<D: Disk>(disk: &mut D) -> Result<(), Failed>
    ensures written { IsTrue (D.tells disk.old) → IsShort (D.seen disk.old) → OnOk result (D.seen disk.new ≡ heading ++ 0 ∷ []) }
    ensures durable { IsTrue (D.tells disk.old) → OnOk result (Only (D.seen disk.new) (D.images disk.new)) }

    // A crash leaves a short file, which has no edits.
    ensures any_moment { IsTrue (D.tells disk.old) → IsShort (D.seen disk.old) → Only (D.seen disk.old) (D.images disk.old)
        → LeavesOnly D.moment_of D.left_since disk.old disk.new IsShort }
    ensures tells { D.tells disk.new ≡ D.tells disk.old }
    ensures cause { HasCause (D.faults disk.old) (D.faults disk.new) result }
{
    disk.write_at(0, NEW_FILE)?;
    disk.sync()
}
