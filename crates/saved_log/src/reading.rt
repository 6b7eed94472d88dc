//! A file read as a whole.
ghost use Rattle.std.specs.Prelude.{◌≡◌, IfOk, IsTrue};
ghost use Rattle.mmt_outside.specs.Faults.{HasCauseOrNoMemory};
ghost use Rattle.saved_log.specs.DiskCalls.{OnlyReads};

use crate::Disk;
use mmt_outside::OutFault;
use std::alloc::Global;

/// How many bytes are read at once.
const ROOM: usize = 65_536;

/// All bytes of the file.
pub(crate) fn read_all<D: Disk>(alloc: Global, disk: &mut D) -> Result<Vec<u8>, OutFault>
    ensures bytes { IsTrue (D.tells disk.old) → IfOk result (λ bytes. bytes.items ≡ D.seen disk.old) }
    ensures tells { D.tells disk.new ≡ D.tells disk.old }
    ensures reads { IsTrue (D.tells disk.old) → OnlyReads D.seen D.images D.moment_of D.left_since disk.old disk.new }
    ensures cause { HasCauseOrNoMemory (D.faults disk.old) (D.faults disk.new) result }
{
    let mut bytes = Vec::new(alloc);
    let mut room = [0; ROOM];
    for _ in 0..u64::MAX {
        let count = disk.read_at(bytes.len() as u64, &mut room)?;
        if count == 0 {
            return Ok(bytes);
        }
        if bytes.extend_from_slice(&room[..count]).is_err() {
            return Err(OutFault::Memory);
        }
    }
    Err(OutFault::Memory)
}
