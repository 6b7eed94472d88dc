//! A disk with one file.
ghost use Rattle.std.specs.Prelude.{◌≡◌, ◌≤◌, Bool, List, ℕ, length, IfOk, OnOk, IsTrue};
ghost use Rattle.saved_log_meaning.specs.Disks.{Only, Follows, Torn, Holds, Elapses};
ghost use Rattle.mmt_outside.specs.Faults.{HasCause};
ghost use Rattle.saved_log.specs.DiskCalls.{OnlyReads, IsRead};

use mmt_outside::Failed;

/// A disk, and the file of it that was opened last. Between two syncs each written range may hold any bytes after a crash, and so may what
/// lies between the old end and the new one, which may stand anywhere between; bytes outside stay. After a sync without an error a crash
/// leaves what a read gives. A write that fails may have left any bytes in its range.
pub trait Disk {
    /// The disk tells what follows.
    ghost tells: { Self → Bool };

    /// The bytes that a read gives.
    ghost seen: { Self → List ℕ };

    /// What a crash now may leave.
    ghost images: { Self → List ℕ → Type 0 };

    /// The time, which does not run back.
    ghost moment_of: { Self → ℕ };

    /// What a crash at some moment since that one might have left.
    ghost left_since: { Self → ℕ → List ℕ → Type 0 };

    /// How many calls have failed. It never falls, and is told by every disk.
    ghost faults: { Self → ℕ };

    /// Opens the file of that name, and makes it where there is none.
    fn open(&mut self, name: &str) -> Result<(), Failed>
        ensures tells { tells self.new ≡ tells self.old }
        ensures reads { IsTrue (tells self.old) → OnlyReads seen images moment_of left_since self.old self.new }
        ensures cause { HasCause (faults self.old) (faults self.new) result };

    /// The number of bytes of the file.
    fn len(&mut self) -> Result<u64, Failed>
        ensures length { IsTrue (tells self.old) → IfOk result (λ count. count ≡ length (seen self.old)) }
        ensures tells { tells self.new ≡ tells self.old }
        ensures reads { IsTrue (tells self.old) → OnlyReads seen images moment_of left_since self.old self.new }
        ensures cause { HasCause (faults self.old) (faults self.new) result };

    /// Puts bytes of the file, from a place on, at the front of the slice, and gives their number. Into a slice that is not empty this is
    /// 0 exactly at the end of the file.
    fn read_at(&mut self, at: u64, into: &mut [u8]) -> Result<usize, Failed>
        // Told or not, the number is at most the length of the slice.
        ensures within { IfOk result (λ count. count ≤ length into.new) }
        ensures bytes { IsTrue (tells self.old) → IfOk result (λ count. IsRead (seen self.old) at count into.new) }
        ensures tells { tells self.new ≡ tells self.old }
        ensures reads { IsTrue (tells self.old) → OnlyReads seen images moment_of left_since self.old self.new }
        ensures cause { HasCause (faults self.old) (faults self.new) result };

    /// Writes the piece from a place on, over what is there and past the end. Nothing is said of a place past the end.
    fn write_at(&mut self, at: u64, piece: &[u8]) -> Result<(), Failed>
        ensures written { IsTrue (tells self.old) → at ≤ length (seen self.old) → OnOk result (Holds (seen self.old) at piece.now (seen self.new)) }
        ensures torn { IsTrue (tells self.old) → at ≤ length (seen self.old) → Follows (Torn at (length piece.now)) (images self.old) (images self.new) }
        ensures time { IsTrue (tells self.old) → Elapses (moment_of self.old) (moment_of self.new) (left_since self.old) (left_since self.new) (images self.new) }
        ensures tells { tells self.new ≡ tells self.old }
        ensures cause { HasCause (faults self.old) (faults self.new) result };

    /// Sees to it that what was written is on the medium.
    fn sync(&mut self) -> Result<(), Failed>
        ensures durable { IsTrue (tells self.old) → OnOk result (Only (seen self.old) (images self.new)) }
        ensures tells { tells self.new ≡ tells self.old }
        ensures reads { IsTrue (tells self.old) → OnlyReads seen images moment_of left_since self.old self.new }
        ensures cause { HasCause (faults self.old) (faults self.new) result };

    /// What a read gives is among what a crash now may leave.
    ghost seen_now: { (disk : Self) → IsTrue (tells disk) → images disk (seen disk) };

    /// This moment is one of those since an earlier one.
    ghost counts_now: { (disk : Self) (moment : ℕ) (image : List ℕ) → IsTrue (tells disk) → moment ≤ moment_of disk → images disk image → left_since disk moment image };

    /// Since this moment there is no other.
    ghost only_now: { (disk : Self) (image : List ℕ) → IsTrue (tells disk) → left_since disk (moment_of disk) image → images disk image };
}
