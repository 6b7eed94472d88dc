//! A disk in memory. It keeps a record of its calls, and tells what crashes may leave.
ghost use Rattle.std.specs.Prelude.{◌≡◌, ◌≤◌, ◌+◌, ◌-◌, ◌↔◌, ◌⊎◌, ◌∷◌, [], length, min, take, IfOk, OnOk, IsErr, IsTrue};
ghost use Rattle.std.specs.Vec.{vec_capacity};
ghost use Rattle.mmt_outside.specs.Faults.{HasCause};
ghost use Rattle.mmt_outside.specs.Memory.{no_calls};
ghost use Rattle.saved_log.specs.MemDisks.{Other, Synced, CutShort, Wrote, with_piece, seen_of, call_fails, counted, noted};

use crate::Disk;
use crate::call_record::{CALL_SIZE, CallRecord};
use lf_terms::{Bytes, Memory};
use mmt_outside::{Failed, Inputs64};
use std::alloc::Global;
use std::marker::Model;

/// A file in memory, seen as its bytes at the beginning and its calls.
#[derive(Debug, Drop)]
pub struct MemDisk {
    start: Bytes,
    bytes: Vec<u8>,
    record: CallRecord,
    made: u64,
    fails: Inputs64,
    faults: u64,
}

impl Model for MemDisk {
    ghost use Rattle.std.specs.Prelude.{◌+◌, ◌-◌, length};
    ghost use Rattle.saved_log.specs.MemDisks.{MemState};

    ghost Value = { MemState };

    ghost use Rattle.saved_log.specs.HeldFiles.{IsHeld};

    ghost view = { λ d. record { start = d.start; kept = d.record.kept; room = d.record.room; taken = d.record.taken + (length d.bytes.items - length d.start); calls = record { made = d.made; fails = d.fails; faults = d.faults } } };

    ghost invariant = { IsHeld };
}

impl MemDisk {
    /// A disk with this file and so much room for the growth of the file and for a record of the calls, of which each takes 32 bytes, a
    /// write also its piece. The calls fail whose numbers, counted from 1, are in the list, and those for which no room is left.
    pub fn new(alloc: Global, bytes: Bytes, room: usize, fails: Inputs64) -> Result<MemDisk, Memory>
        ensures start { IfOk result (λ disk. disk.start ≡ bytes) }
        ensures kept { IfOk result (λ disk. disk.kept ≡ []) }
        ensures room { IfOk result (λ disk. disk.room ≡ room) }
        ensures taken { IfOk result (λ disk. disk.taken ≡ 0) }
        ensures calls { IfOk result (λ disk. disk.calls ≡ no_calls fails) }
    {
        let Some(size) = bytes.len().checked_add(room) else {
            return Err(Memory);
        };
        let mut held = Vec::with_capacity(alloc, size)?;
        held.extend_from_slice(bytes.as_slice())?;
        let record = CallRecord::new(alloc, room)?;
        Ok(MemDisk {
            start: bytes,
            bytes: held,
            record,
            made: 0,
            fails,
            faults: 0,
        })
    }

    /// The bytes that a read gives.
    pub fn bytes(&self) -> &[u8]
        ensures { result.now ≡ seen_of self.now.start self.now.kept }
    {
        self.bytes.as_slice()
    }

    /// How much room is left.
    fn room_left(&self) -> usize
        ensures { result + self.now.taken ≡ self.now.room }
    {
        let growth = self.bytes.len() - self.start.len();
        self.record.room() - (self.record.taken() + growth)
    }

    /// Counts a call that takes so much room beside its own. It fails where the list has its number or the room is not left.
    fn next(&mut self, extra: usize) -> Result<(), Failed>
        ensures fails { IsErr result ↔ IsTrue (call_fails self.old extra) }
        ensures after { self.new ≡ counted self.old extra }
        ensures room { OnOk result (self.old.taken + (extra + 32) ≤ self.old.room) }
        ensures cause { HasCause self.old.calls.faults self.new.calls.faults result }
    {
        self.made = self.made.saturating_add(1);
        let is_listed = self.fails.as_slice().contains(&self.made);
        let left = self.room_left();
        if is_listed || left < CALL_SIZE || left - CALL_SIZE < extra {
            self.faults = self.faults.saturating_add(1);
            return Err(Failed);
        }
        Ok(())
    }

    /// Keeps a call that wrote nothing.
    fn note_other(&mut self)
        requires { self.old.taken + 32 ≤ self.old.room }
        ensures { self.new ≡ noted Other self.old 32 }
    {
        self.record.add_other();
    }

    /// Keeps a sync.
    fn note_sync(&mut self)
        requires { self.old.taken + 32 ≤ self.old.room }
        ensures { self.new ≡ noted Synced self.old 32 }
    {
        self.record.add_sync();
    }

    /// Keeps a write that failed, where there is room for that.
    fn note_cut(&mut self, at: usize, count: usize)
        ensures start { self.new.start ≡ self.old.start }
        ensures kept { (self.new.kept ≡ self.old.kept) ⊎ (self.new.kept ≡ CutShort at count ∷ self.old.kept) }
        ensures calls { self.new.calls ≡ self.old.calls }
    {
        if self.room_left() >= CALL_SIZE {
            self.record.add_cut(at, count);
        }
    }

    /// By how many bytes a write makes the file longer.
    fn growth(&self, at: usize, count: usize) -> usize
        requires { at ≤ length (seen_of self.now.start self.now.kept) }
        ensures { result ≡ count - (length (seen_of self.now.start self.now.kept) - at) }
    {
        count.saturating_sub(self.bytes.len() - at)
    }

    /// Writes, and keeps that.
    fn note_write(&mut self, at: usize, piece: &[u8])
        requires within { at ≤ length (seen_of self.old.start self.old.kept) }
        requires room { self.old.taken + (length piece.now + (length piece.now - (length (seen_of self.old.start self.old.kept) - at)) + 32) ≤ self.old.room }
        ensures start { self.new.start ≡ self.old.start }
        ensures kept { self.new.kept ≡ Wrote at piece.now ∷ self.old.kept }
        ensures calls { self.new.calls ≡ self.old.calls }
    {
        overwrite(&mut self.bytes, at, piece);
        self.record.add_write(at, piece);
    }
}

/// Writes the piece from a place on that is no later than the end. There is room for it.
fn overwrite(bytes: &mut Vec<u8>, at: usize, piece: &[u8])
    requires within { at ≤ length bytes.old.items }
    requires room { at + length piece.now ≤ vec_capacity bytes.old }
    ensures items { bytes.new.items ≡ with_piece bytes.old.items at piece.now }
    ensures capacity { vec_capacity bytes.old ≤ vec_capacity bytes.new }
{
    if piece.len() <= bytes.len() - at {
        bytes[at..at + piece.len()].copy_from_slice(piece);
    } else {
        bytes.truncate(at);
        bytes.extend_from_slice(piece).unwrap();
    }
}

impl Disk for MemDisk {
    ghost use Rattle.std.specs.Prelude.{true, length};
    ghost use Rattle.saved_log.specs.MemDisks.{seen_of, images_of, left_of, seen_is_image, image_counts, image_only};

    ghost tells = { λ _. true };

    ghost seen = { λ d. seen_of d.start d.kept };

    ghost images = { λ d. images_of d.start d.kept };

    ghost moment_of = { λ d. length d.kept };

    ghost left_since = { λ d. left_of d.start d.kept };

    ghost faults = { λ d. d.calls.faults };

    fn open(&mut self, _name: &str) -> Result<(), Failed> {
        self.next(0)?;
        self.note_other();
        Ok(())
    }

    fn len(&mut self) -> Result<u64, Failed> {
        self.next(0)?;
        self.note_other();
        Ok(self.bytes.len() as u64)
    }

    fn read_at(&mut self, at: u64, into: &mut [u8]) -> Result<usize, Failed> {
        self.next(0)?;
        self.note_other();
        let from = (at as usize).min(self.bytes.len());
        Ok(copy_front(&self.bytes[from..], into))
    }

    fn write_at(&mut self, at: u64, piece: &[u8]) -> Result<(), Failed> {
        let from = (at as usize).min(self.bytes.len());
        let growth = self.growth(from, piece.len());
        if let Err(failed) = self.next(piece.len().saturating_add(growth)) {
            self.note_cut(from, piece.len());
            return Err(failed);
        }
        self.note_write(from, piece);
        Ok(())
    }

    fn sync(&mut self) -> Result<(), Failed> {
        self.next(0)?;
        self.note_sync();
        Ok(())
    }

    ghost seen_now = { λ d told. seen_is_image d.start d.kept };

    ghost counts_now = { λ d moment image told le now. image_counts d.start d.kept moment image le now };

    ghost only_now = { λ d image told left. image_only d.start d.kept image left };
}

/// Copies as many bytes as there are and fit, and gives their number.
fn copy_front(from: &[u8], into: &mut [u8]) -> usize
    ensures count { result ≡ min (length from.now) (length into.new) }
    ensures front { take result into.new ≡ take result from.now }
{
    let count = from.len().min(into.len());
    into[..count].copy_from_slice(&from[..count]);
    count
}
