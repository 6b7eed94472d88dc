//! The text of a `put`, as far as it is kept.
ghost use Rattle.std.specs.Prelude.{◌≡◌, ◌≤◌, suc, [], length, take, OnOk};
ghost use Rattle.name_meaning.specs.Limits.{text_limit};
ghost use Rattle.script_reader.specs.HeldTexts.{held_of, more};

use std::alloc::{AllocError, Global};
use std::marker::Model;

/// How many bytes of a text are kept: so many that a text which is longer than the limit of texts is seen to be.
const KEPT_LIMIT: usize = (1 << 20) + 1;

/// The first bytes of a text, and the length of all of it, which stands still at its greatest value.
#[derive(Drop)]
pub(crate) struct KeptText {
    kept: Vec<u8>,
    total: u64,
}

impl Model for KeptText {
    ghost use Rattle.std.specs.Prelude.{◌≤◌, suc, length};
    ghost use Rattle.name_meaning.specs.Limits.{text_limit};
    ghost use Rattle.script_reader.specs.HeldTexts.{Held};

    ghost Value = { Held };

    ghost view = { λ t. record { kept = t.kept.items; total = t.total } };

    ghost invariant = { λ t. length t.kept.items ≤ suc text_limit };
}

/// The first so many bytes, all of them where there are fewer.
fn front(bytes: &[u8], count: usize) -> &[u8]
    ensures { result.now ≡ take count bytes.now }
{
    match bytes.get(..count) {
        Some(front) => front,
        None => bytes,
    }
}

impl KeptText {
    pub(crate) fn new(alloc: Global) -> Self
        ensures { result ≡ held_of [] }
    {
        KeptText {
            kept: Vec::new(alloc),
            total: 0,
        }
    }

    /// The length of all of the text, kept or not.
    pub(crate) fn total(&self) -> u64
        ensures { result ≡ self.now.total }
    {
        self.total
    }

    /// Adds a piece at the end of the text, and keeps of it what is still kept.
    pub(crate) fn push(&mut self, piece: &[u8]) -> Result<(), AllocError>
        ensures { OnOk result (self.new ≡ more self.old piece.now) }
    {
        let room = KEPT_LIMIT - self.kept.len();
        self.kept.extend_from_slice(front(piece, room))?;
        self.total = self.total.saturating_add(piece.len() as u64);
        Ok(())
    }

    /// What is kept. It takes no memory.
    pub(crate) fn into_kept(self) -> Vec<u8>
        ensures kept { result.items ≡ self.kept }
        ensures within { length result.items ≤ suc text_limit }
    {
        self.kept
    }
}
