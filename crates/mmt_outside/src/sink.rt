//! A sink for bytes.
ghost use Rattle.std.specs.Prelude.{◌≡◌, ◌<◌, ◌≤◌, ℕ, length, take, IfOk, OnOk, OnErr};
ghost use Rattle.std.specs.declared.option.Option.{Option};
ghost use Rattle.mmt_outside.specs.Bytes.{Taken, appended, flushed};
ghost use Rattle.mmt_outside.specs.Faults.{HasCause};

use crate::Failed;

/// What takes the bytes of an output, in order.
pub trait Sink {
    /// The bytes taken, and how many of them the last flush without an error covered, where the sink tells them.
    ghost taken: { Self → Option Taken };

    /// How many calls have failed. It never falls.
    ghost faults: { Self → ℕ };

    /// Takes the first bytes of the piece, at least one where there is one, and gives their number.
    fn write(&mut self, piece: &[u8]) -> Result<usize, Failed>
        // Told or not, the number is at most the length of the piece, and not 0 where the piece is not empty.
        ensures within { IfOk result (λ count. count ≤ length piece.now) }
        ensures progress { IfOk result (λ count. 0 < length piece.now → 0 < count) }
        ensures bytes { IfOk result (λ count. taken self.new ≡ appended (taken self.old) (take count piece.now)) }
        ensures failed { OnErr result (taken self.new ≡ taken self.old) }
        ensures cause { HasCause (faults self.old) (faults self.new) result };

    /// Sees to it that the bytes taken are where they are to go.
    fn flush(&mut self) -> Result<(), Failed>
        ensures covers { OnOk result (taken self.new ≡ flushed (taken self.old)) }
        ensures failed { OnErr result (taken self.new ≡ taken self.old) }
        ensures cause { HasCause (faults self.old) (faults self.new) result };
}
