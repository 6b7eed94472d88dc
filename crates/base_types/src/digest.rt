//! The number by which paths are hashed.
ghost use Rattle.std.specs.Prelude.{◌≡◌};
ghost use Rattle.base_types.specs.Digests.{digest_of};

use crate::Name;
use std::hash::{FoldHasher, Hash, Hasher};

/// The digest of names: 64 bits that are made of all of them, in order. It takes no memory.
pub fn digest_of(names: &[Name]) -> u64
    ensures { result ≡ digest_of names.now }
{
    let mut state = FoldHasher::default();
    names.hash(&mut state);
    state.finish()
}
