//! The record that a disk in memory keeps of its calls.
ghost use Rattle.std.specs.Prelude.{◌≡◌, ◌+◌, ◌≤◌, ◌∷◌, [], length, IfOk};
ghost use Rattle.saved_log.specs.MemDisks.{Other, Wrote, CutShort, Synced};

use lf_terms::Memory;
use std::alloc::Global;
use std::marker::Model;

/// How much room a call takes beside its piece.
pub(crate) const CALL_SIZE: usize = 32;

/// A call as it is kept. The bytes of a write stand among the pieces.
#[derive(Clone, Copy, Debug)]
enum Kept {
    Other,
    Wrote {
        at: usize,
        from: usize,
        count: usize,
    },
    CutShort {
        at: usize,
        count: usize,
    },
    Synced,
}

/// Calls, seen as the list of them, the last one first, with the room for them and how much of it they take.
#[derive(Debug, Drop)]
pub(crate) struct CallRecord {
    kept: Vec<Kept>,
    pieces: Vec<u8>,
    room: usize,
}

impl Model for CallRecord {
    ghost use Rattle.std.specs.Prelude.{◌+◌, ◌*◌, length};
    ghost use Rattle.saved_log.specs.MemDisks.{Recorded};

    ghost Value = { Recorded };

    ghost use Rattle.saved_log.specs.KeptCalls.{read_kept, IsRecorded};

    ghost view = { λ r. record { kept = read_kept r.pieces.items r.kept.items; room = r.room; taken = 32 * length r.kept.items + length r.pieces.items } };

    ghost invariant = { IsRecorded };
}

impl CallRecord {
    /// No calls.
    pub(crate) fn new(alloc: Global, room: usize) -> Result<CallRecord, Memory>
        ensures kept { IfOk result (λ made. made.kept ≡ []) }
        ensures room { IfOk result (λ made. made.room ≡ room) }
        ensures taken { IfOk result (λ made. made.taken ≡ 0) }
    {
        Ok(CallRecord {
            kept: Vec::with_capacity(alloc, room / CALL_SIZE)?,
            pieces: Vec::with_capacity(alloc, room)?,
            room,
        })
    }

    /// How much room there is.
    pub(crate) fn room(&self) -> usize
        ensures { result ≡ self.now.room }
    {
        self.room
    }

    /// How much of the room the calls take.
    pub(crate) fn taken(&self) -> usize
        ensures same { result ≡ self.now.taken }
        ensures within { self.now.taken ≤ self.now.room }
    {
        self.kept.len() * CALL_SIZE + self.pieces.len()
    }

    /// Adds a call that writes nothing.
    pub(crate) fn add_other(&mut self)
        requires { self.old.taken + 32 ≤ self.old.room }
        ensures { self.new ≡ record { kept = Other ∷ self.old.kept; room = self.old.room; taken = self.old.taken + 32 } }
    {
        self.kept.push_reserved(Kept::Other);
    }

    /// Adds a sync.
    pub(crate) fn add_sync(&mut self)
        requires { self.old.taken + 32 ≤ self.old.room }
        ensures { self.new ≡ record { kept = Synced ∷ self.old.kept; room = self.old.room; taken = self.old.taken + 32 } }
    {
        self.kept.push_reserved(Kept::Synced);
    }

    /// Adds a write that failed.
    pub(crate) fn add_cut(&mut self, at: usize, count: usize)
        requires { self.old.taken + 32 ≤ self.old.room }
        ensures { self.new ≡ record { kept = CutShort at count ∷ self.old.kept; room = self.old.room; taken = self.old.taken + 32 } }
    {
        self.kept.push_reserved(Kept::CutShort { at, count });
    }

    /// Adds a write.
    pub(crate) fn add_write(&mut self, at: usize, piece: &[u8])
        requires { self.old.taken + 32 + length piece.now ≤ self.old.room }
        ensures { self.new ≡ record { kept = Wrote at piece.now ∷ self.old.kept; room = self.old.room; taken = self.old.taken + 32 + length piece.now } }
    {
        let from = self.pieces.len();
        self.pieces.extend_from_slice(piece).unwrap();
        self.kept.push_reserved(Kept::Wrote {
            at,
            from,
            count: piece.len(),
        });
    }
}
