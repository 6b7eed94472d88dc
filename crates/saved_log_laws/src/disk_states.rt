//! What the laws ask of the state of a disk.

ghost use Rattle.std.specs.Prelude.{ℕ, List};

/// The state of a disk, as far as crashes go. Laws hold for every such state; no code is asked of it.
pub trait DiskState {
    /// What a crash may leave now.
    ghost images: { Self → List ℕ → Type 0 };

    /// The moment of this state.
    ghost moment_of: { Self → ℕ };

    /// What crashes might have left since that moment.
    ghost left_since: { Self → ℕ → List ℕ → Type 0 };
}
