//! Writes that are cut short, and the moments of a disk.

ghost use Rattle.saved_log_laws.specs.DiskLaws.{TornMeans, WrittenIsTorn, NothingIsTorn, TimeGoesOn, MomentsStart, MomentsGoOn};

use crate::disk_states::DiskState;

/// A write that is cut short leaves, in place of its range, as many bytes or fewer, and never a shorter file; one that is done, or not
/// begun, is among these.
pub fn law_torn_writes()
    ensures means { TornMeans }
    ensures done { WrittenIsTorn }
    ensures nothing { NothingIsTorn }
{}

/// Times that follow each other are one time, and what each of a row of calls leaves alone all of them leave alone. What crashes may leave
/// of the disk `wanted` stands for any property of images.
pub fn law_moments<S: DiskState, W: DiskState>(old: &S, between: &S, new: &S, wanted: &W)
    ensures time { TimeGoesOn (S.left_since old.now) (S.left_since between.now) (S.left_since new.now) (S.images between.now) (S.images new.now) }
    ensures start { MomentsStart S.moment_of S.left_since old.now (W.images wanted.now) }
    ensures go_on { MomentsGoOn S.moment_of S.left_since old.now between.now new.now (W.images wanted.now) (S.images new.now) }
{}
