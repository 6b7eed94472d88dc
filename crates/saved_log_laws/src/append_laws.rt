//! The two writes of an append: the record and a closed gate behind the last gate, and then, after a sync, this gate.

ghost use Rattle.saved_log_laws.specs.SavedFileLaws.{LastGateIsReady};
ghost use Rattle.saved_log_laws.specs.AppendLaws.{ReadyHoldsBefore, PlacesAreWithin, FirstWriteLeavesBefore, SecondWriteLeavesEither, BothWritesHoldAfter};

use crate::disk_states::DiskState;

/// A disk whose file has a last gate is ready for every edit that its log takes. On a disk that is ready every crash leaves the edits from
/// before, and both writes start within the file.
pub fn law_ready<S: DiskState>(disk: &S)
    ensures ready { LastGateIsReady (S.images disk.now) }
    ensures before { ReadyHoldsBefore (S.images disk.now) }
    ensures places { PlacesAreWithin (S.images disk.now) }
{}

/// Every crash in the first write leaves the edits from before, every crash in the second one, which comes when the first is on the disk,
/// these or the edits that are wanted, and after both the file holds those that are wanted.
pub fn law_append_writes<S: DiskState>(disk: &S, synced: &S, torn: &S)
    ensures first { FirstWriteLeavesBefore (S.images disk.now) (S.images torn.now) }
    ensures second { SecondWriteLeavesEither (S.images disk.now) (S.images synced.now) (S.images torn.now) }
    ensures both { BothWritesHoldAfter (S.images disk.now) }
{}
