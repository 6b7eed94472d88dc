//! What lies under the lock: a value with entries.
ghost use Rattle.std.specs.Prelude.{◌≡◌, ℕ, List, length};

/// A value with entries, each of which carries the number of the pass that made it.
pub trait Story {
    /// An entry. The lock makes no value of it: entries stand in contracts alone.
    type Entry;

    /// The entries, in order.
    ghost entries: { Self → List Self.Entry };

    /// The number that an entry carries.
    ghost number: { Self.Entry → ℕ };

    /// How many entries there are.
    fn count(&self) -> u64
        ensures { result ≡ length (entries self.now) };
}
