//! A saved log: opened, and appended to.
ghost use Rattle.std.specs.Prelude.{◌≡◌, ◌+◌, ◌++◌, ◌∷◌, [], List, ℕ, IfErr, IfOk, IsErrOf, IsTrue, OnErr, OnOk};
ghost use Rattle.edit_log_meaning.specs.Log as logs;
ghost use Rattle.edit_log_meaning.specs.Log.{version_of};
ghost use Rattle.edit_log.specs.Readings.{read_edit};
ghost use Rattle.saved_log_meaning.specs.SavedFiles.{Edits, file_contents};
ghost use Rattle.saved_log_meaning.specs.Disks.{LeavesOnly};
ghost use Rattle.saved_log_meaning.specs.Appends.{BeforeOrAfter};
ghost use Rattle.saved_log_laws.specs.SavedFileLaws.{Takes};
ghost use Rattle.mmt_outside.specs.Faults.{HasCauseOrNoMemory};
ghost use Rattle.saved_log.specs.DiskCalls.{OnlyReads};
ghost use Rattle.saved_log.specs.Standing.{StandsAt, IsLeftOrHolds, IsDamageOf, IsDamage, HasCauseOfFault};

use crate::append::append_bytes;
use crate::edits::{HEADING, read_edits};
use crate::opening::{NEW_FILE, open_file, write_new};
use crate::record::gated_record;
use crate::{Disk, SaveFault};
use edit_log::{Edit, Log};
use mmt_outside::OutFault;
use std::alloc::Global;
use std::marker::Model;

/// A saved log on a disk, seen as the place of its last gate and the number of its edits.
#[derive(Debug, Drop)]
pub struct Saved {
    gate: u64,
    edits: u32,
}

impl Model for Saved {
    ghost use Rattle.saved_log.specs.Standing.{SavedAt, IsNear};

    ghost Value = { SavedAt };

    ghost view = { λ s. record { gate = s.gate; edits = s.edits } };

    ghost invariant = { λ s. IsNear s.gate s.edits };
}

impl Saved {
    /// Opens the log of that name and gives it with its edits. A file with at most nine bytes is taken for a new one, whatever it holds,
    /// and is written anew.
    pub fn open<D: Disk>(alloc: Global, disk: &mut D, name: &str) -> Result<(Saved, Log), SaveFault>
        // The edits are those of the file as it was, and the disk has them now, whatever crashes from here on leave.
        ensures read { IsTrue (D.tells disk.old) → IfOk result (λ opened. file_contents (D.seen disk.old) ≡ Edits opened.1) }
        ensures stands { IsTrue (D.tells disk.old) → IfOk result (λ opened. StandsAt opened.1 opened.0.gate (D.seen disk.new) (D.images disk.new)) }
        ensures kept { IsTrue (D.tells disk.old) → IfOk result (λ opened. (image : List ℕ) → D.images disk.new image → file_contents image ≡ Edits opened.1) }
        ensures edits { IfOk result (λ opened. opened.0.edits ≡ version_of opened.1) }

        // A damaged file is told with its place, and nothing is written.
        ensures damaged { IsTrue (D.tells disk.old) → IfErr result (IsDamageOf (file_contents (D.seen disk.old))) }
        ensures unwritten { IsTrue (D.tells disk.old) → IfErr result (λ fault. IsDamage fault → OnlyReads D.seen D.images D.moment_of D.left_since disk.old disk.new) }

        // Every crash on the way leaves what a crash before could leave, or a file with the edits that are read.
        ensures any_moment { IsTrue (D.tells disk.old) → LeavesOnly D.moment_of D.left_since disk.old disk.new (IsLeftOrHolds (D.images disk.old) (D.seen disk.old)) }
        ensures tells { D.tells disk.new ≡ D.tells disk.old }
        ensures cause { HasCauseOfFault (D.faults disk.old) (D.faults disk.new) result }
    {
        let bytes = open_file(alloc, disk, name)?;
        if bytes.len() <= NEW_FILE.len() {
            write_new(disk)?;
            let saved = Saved {
                gate: HEADING.len() as u64,
                edits: 0,
            };
            return Ok((saved, Log::new(alloc)));
        }
        let mut log = Log::new(alloc);
        let gate = read_edits(alloc, &bytes, &mut log)?;
        let saved = Saved {
            gate: gate as u64,
            edits: log.version(),
        };
        Ok((saved, log))
    }

    /// Appends an edit that the log makes, which has this many edits so far. The disk has to be as `open` and each `append` since have
    /// left it, none of them with `Failed`; after `Failed` the log has to be opened again.
    pub fn append<D: Disk>(
        &mut self,
        alloc: Global,
        disk: &mut D,
        edit: &Edit,
    ) -> Result<(), OutFault>
        requires { (log : logs.Log) × (version_of log ≡ self.old.edits) × Takes log (read_edit edit.now) }

        // Every crash on the way leaves the edits from before, or these and the new one.
        ensures any_moment { (log : logs.Log) → IsTrue (D.tells disk.old) → StandsAt log self.old.gate (D.seen disk.old) (D.images disk.old) → Takes log (read_edit edit.now)
            → LeavesOnly D.moment_of D.left_since disk.old disk.new (BeforeOrAfter (Edits log) (Edits (log ++ read_edit edit.now ∷ []))) }

        // At `Ok` the edit is acknowledged: whatever crashes from here on leave has it.
        ensures stands { (log : logs.Log) → IsTrue (D.tells disk.old) → StandsAt log self.old.gate (D.seen disk.old) (D.images disk.old) → Takes log (read_edit edit.now)
            → OnOk result (StandsAt (log ++ read_edit edit.now ∷ []) self.new.gate (D.seen disk.new) (D.images disk.new)) }
        ensures kept { (log : logs.Log) → IsTrue (D.tells disk.old) → StandsAt log self.old.gate (D.seen disk.old) (D.images disk.old) → Takes log (read_edit edit.now)
            → OnOk result ((image : List ℕ) → D.images disk.new image → file_contents image ≡ Edits (log ++ read_edit edit.now ∷ [])) }
        ensures edits { OnOk result (self.new.edits ≡ self.old.edits + 1) }
        ensures unchanged { OnErr result (self.new ≡ self.old) }
        ensures untouched { IsErrOf result OutFault.Memory → disk.new ≡ disk.old }
        ensures tells { D.tells disk.new ≡ D.tells disk.old }
        ensures cause { HasCauseOrNoMemory (D.faults disk.old) (D.faults disk.new) result }
    {
        let piece = gated_record(alloc, edit)?;
        append_bytes(disk, self.gate, &piece)?;
        self.gate += piece.len() as u64;
        self.edits += 1;
        Ok(())
    }
}
