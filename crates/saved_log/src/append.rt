//! The writes of an append.
ghost use Rattle.std.specs.Prelude.{◌≡◌, ◌<◌, ◌+◌, ◌^◌, OnOk, IsTrue};
ghost use Rattle.saved_log_meaning.specs.SavedFiles.{Contents};
ghost use Rattle.saved_log_meaning.specs.Disks.{LeavesOnly};
ghost use Rattle.saved_log_meaning.specs.Appends.{Ready, BeforeOrAfter};
ghost use Rattle.mmt_outside.specs.Faults.{HasCause};
ghost use Rattle.saved_log.specs.DiskCalls.{IsAppended};

use crate::Disk;
use mmt_outside::Failed;

/// Writes the piece, which ends with a closed gate, behind a closed gate, and opens that gate once the piece is on the disk.
pub(crate) fn append_bytes<D: Disk>(disk: &mut D, gate: u64, piece: &[u8]) -> Result<(), Failed>
    requires { gate + 1 < 2 ^ 64 }
    ensures any_moment { (before after : Contents) → IsTrue (D.tells disk.old) → Ready (D.seen disk.old) (D.images disk.old) gate piece.now before after
        → LeavesOnly D.moment_of D.left_since disk.old disk.new (BeforeOrAfter before after) }
    ensures appended { (before after : Contents) → IsTrue (D.tells disk.old) → (ready : Ready (D.seen disk.old) (D.images disk.old) gate piece.now before after)
        → OnOk result (IsAppended ready.front ready.edit_bytes (D.seen disk.new) (D.images disk.new)) }
    ensures tells { D.tells disk.new ≡ D.tells disk.old }
    ensures cause { HasCause (D.faults disk.old) (D.faults disk.new) result }
{
    disk.write_at(gate + 1, piece)?;
    disk.sync()?;
    disk.write_at(gate, &[1])?;
    disk.sync()
}
