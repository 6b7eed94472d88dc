//! A sink into memory.
ghost use Rattle.std.specs.Prelude.{◌≡◌, ◌↔◌, ◌<◌, ◌≤◌, ◌+◌, ◌-◌, [], ◌++◌, Some, length, take, min, IfOk, OnOk, OnErr, IsErr, IsTrue, IfErr};
ghost use Rattle.mmt_outside.specs.Bytes.{appended, flushed};
ghost use Rattle.mmt_outside.specs.Faults.{HasCause};
ghost use Rattle.mmt_outside.specs.Memory.{no_calls, next_fails, after_call, room_left, write_fails, after_write};

use crate::calls::CallCount;
use crate::{Failed, Inputs64, Sink};
use lf_terms::Memory;
use std::alloc::Global;
use std::marker::Model;

/// Room for bytes, and a list of the calls that fail. It is seen as the bytes taken, its room and its calls.
#[derive(Debug, Drop)]
pub struct MemSink {
    bytes: Vec<u8>,
    flushed: usize,
    room: usize,
    calls: CallCount,
}

impl Model for MemSink {
    ghost use Rattle.std.specs.Prelude.{◌≤◌, length};
    ghost use Rattle.std.specs.Vec.{vec_capacity};
    ghost use Rattle.mmt_outside.specs.Memory.{SinkState};

    ghost Value = { SinkState };

    ghost view = { λ s. record { taken = record { bytes = s.bytes.items; flushed = s.flushed }; room = s.room; calls = s.calls } };

    ghost invariant = { λ s. (length s.bytes.items ≤ s.room) × (s.room ≤ vec_capacity s.bytes) };
}

impl MemSink {
    /// A sink that has taken nothing yet. The call with each number of the list fails, from 1 on.
    pub fn new(alloc: Global, room: usize, fails: Inputs64) -> Result<MemSink, Memory>
        ensures bytes { IfOk result (λ sink. sink.taken.bytes ≡ []) }
        ensures flushed { IfOk result (λ sink. sink.taken.flushed ≡ 0) }
        ensures room { IfOk result (λ sink. sink.room ≡ room) }
        ensures calls { IfOk result (λ sink. sink.calls ≡ no_calls fails) }
    {
        let bytes = Vec::with_capacity(alloc, room)?;
        Ok(MemSink {
            bytes,
            flushed: 0,
            room,
            calls: CallCount::new(fails),
        })
    }

    /// The bytes taken.
    pub fn bytes(&self) -> &[u8]
        ensures { result.now ≡ self.now.taken.bytes }
    {
        self.bytes.as_slice()
    }
}

impl Sink for MemSink {
    ghost taken = { λ s. Some s.taken };

    ghost faults = { λ s. s.calls.faults };

    fn write(&mut self, piece: &[u8]) -> Result<usize, Failed>
        ensures room { self.new.room ≡ self.old.room }

        // It fails exactly where the list says so or no byte of the piece has room, and else takes what has room.
        ensures fails { IsErr result ↔ IsTrue (write_fails self.old (length piece.now)) }
        ensures calls { self.new.calls ≡ after_write self.old (length piece.now) }
        ensures steady { self.old.calls.fails ≡ [] → length piece.now ≤ room_left self.old → self.new.calls.faults ≡ self.old.calls.faults }
        ensures count { IfOk result (λ count. count ≡ min (length piece.now) (room_left self.old)) }

        // What the trait says.
        ensures within { IfOk result (λ count. count ≤ length piece.now) }
        ensures progress { IfOk result (λ count. 0 < length piece.now → 0 < count) }
        ensures bytes { IfOk result (λ count. Some self.new.taken ≡ appended (Some self.old.taken) (take count piece.now)) }
        ensures failed { OnErr result (Some self.new.taken ≡ Some self.old.taken) }
        ensures cause { HasCause self.old.calls.faults self.new.calls.faults result }
    {
        self.calls.next()?;
        let count = piece.len().min(self.room - self.bytes.len());
        if count == 0 && !piece.is_empty() {
            return Err(self.calls.fault());
        }
        self.bytes.extend_from_slice(&piece[..count]).unwrap();
        Ok(count)
    }

    fn flush(&mut self) -> Result<(), Failed>
        ensures room { self.new.room ≡ self.old.room }

        // It fails exactly where the list says so.
        ensures fails { IsErr result ↔ IsTrue (next_fails self.old.calls) }
        ensures calls { self.new.calls ≡ after_call self.old.calls }
        ensures steady { self.old.calls.fails ≡ [] → self.new.calls.faults ≡ self.old.calls.faults }

        // What the trait says.
        ensures covers { OnOk result (Some self.new.taken ≡ flushed (Some self.old.taken)) }
        ensures failed { OnErr result (Some self.new.taken ≡ Some self.old.taken) }
        ensures cause { HasCause self.old.calls.faults self.new.calls.faults result }
    {
        self.calls.next()?;
        self.flushed = self.bytes.len();
        Ok(())
    }
}
