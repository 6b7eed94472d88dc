//! How large objects are. Whatever goes through a term does so by calls as deep as it is nested, and meets what is shared as often as
//! it stands there: so arguments that are nested past a bound, or would never be gone through, are want of memory where they are put
//! together. Families and kinds need no such test: no definition puts a Π in place of a constant, so Πs are nested as
//! deep as a text spells them, and so are the λs between two heads.

use crate::Obj;
use base_types::Memory;

/// The greatest depth: so many λs and arguments may stand in one another. docs/guide/limits.md says what stack that takes.
pub const DEEPEST: u32 = 40_000;

/// The greatest number of heads in a row of arguments, with those inside of them.
const LARGEST: u32 = 1 << 26;

/// How many λs and arguments stand in one another, and how many heads there are.
#[derive(Clone, Copy, Debug)]
pub(crate) struct Measure {
    depth: u32,
    heads: u32,
}

impl Measure {
    /// That of no arguments.
    pub(crate) fn nothing() -> Measure {
        Measure { depth: 0, heads: 0 }
    }

    /// That of a head with these arguments.
    pub(crate) fn with_head(self) -> Measure {
        Measure {
            depth: self.depth,
            heads: self.heads.saturating_add(1),
        }
    }

    /// That of a λ around this.
    pub(crate) fn under_binder(self) -> Measure {
        Measure {
            depth: self.depth.saturating_add(1),
            heads: self.heads,
        }
    }

    /// That of objects as arguments of one head. Memory past the greatest depth or number of heads.
    pub(crate) fn together(items: &[Obj]) -> Result<Measure, Memory> {
        let mut depth = 0u32;
        let mut heads = 0u32;
        for item in items {
            let own = item.measure();
            depth = depth.max(own.depth);
            heads = heads.saturating_add(own.heads);
        }
        if depth < DEEPEST && heads <= LARGEST {
            Ok(Measure {
                depth: depth + 1,
                heads,
            })
        } else {
            Err(Memory)
        }
    }
}
