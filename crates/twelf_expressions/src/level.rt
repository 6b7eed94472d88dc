//! Nestings of expressions.
ghost use Rattle.std.specs.Prelude.{◌≡◌, ◌+◌, ◌≤◌, MatchOption};

/// The nesting at which an expression stands, counted from 1. None stands deeper than 500.
#[derive(Clone, Copy, Debug)]
pub(crate) struct Level {
    pub n: u32,
    ghost within: { n ≤ 500 },
}

impl Level {
    pub(crate) fn first() -> Level
        ensures { result.n ≡ 1 }
    {
        Level { n: 1 }
    }

    /// The next nesting. None where that is too deep.
    pub(crate) fn deeper(self) -> Option<Level>
        ensures { MatchOption result (self.n ≡ 500) (λ level. level.n ≡ self.n + 1) }
    {
        if self.n < 500 {
            return Some(Level { n: self.n + 1 });
        }
        None
    }
}
