//! A source of bytes.
ghost use Rattle.std.specs.Prelude.{◌≡◌, ◌<◌, ◌≤◌, List, ℕ, length, take, IfOk, OnErr};
ghost use Rattle.std.specs.declared.option.Option.{Option};
ghost use Rattle.mmt_outside.specs.Bytes.{preceded, IsEndOfInput};
ghost use Rattle.mmt_outside.specs.Faults.{HasCause};

use crate::Failed;

/// What gives the bytes of an input, in order.
pub trait Source {
    /// The bytes that are left, where the source tells them.
    ghost left: { Self → Option (List ℕ) };

    /// How many calls have failed. It never falls.
    ghost faults: { Self → ℕ };

    /// Puts the first of the bytes left at the front of the slice, and gives their number.
    /// Into a slice that is not empty this is 0 exactly where no bytes are left: the end of the input.
    fn read(&mut self, into: &mut [u8]) -> Result<usize, Failed>
        // Told or not, the number is at most the length of the slice.
        ensures within { IfOk result (λ count. count ≤ length into.new) }

        // The bytes left before are those that were read, and then those left after.
        ensures bytes { IfOk result (λ count. left self.old ≡ preceded (take count into.new) (left self.new)) }
        ensures end { IfOk result (λ count. 0 < length into.new → IsEndOfInput (left self.old) count) }
        ensures failed { OnErr result (left self.new ≡ left self.old) }
        ensures untouched { OnErr result (into.new ≡ into.old) }
        ensures cause { HasCause (faults self.old) (faults self.new) result };
}
