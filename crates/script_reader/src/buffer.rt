//! Bytes that were read from a source and not used yet.
ghost use Rattle.std.specs.Prelude.{◌≡◌, ◌≤◌, ◌<◌, ℕ, List, [], ◌++◌, length, drop, take, OnOk, OnErr, IfSome, IsTrue, ◌↔◌, slice_range};
ghost use Rattle.mmt_outside.specs.Bytes.{preceded, IsEndOfInput};
ghost use Rattle.mmt_outside.specs.Faults.{HasCause};

use mmt_outside::{Failed, Source};
use std::marker::Model;

/// At most 64 bytes, seen as the list of them.
#[derive(Drop)]
pub(crate) struct Buffer {
    bytes: [u8; 64],
    from: usize,
    to: usize,
}

impl Model for Buffer {
    ghost use Rattle.std.specs.Prelude.{List, ℕ, ◌≤◌, slice_range};

    ghost Value = { List ℕ };

    ghost view = { λ b. slice_range b.bytes b.from b.to };

    ghost invariant = { λ b. (b.from ≤ b.to) × (b.to ≤ 64) };
}

impl Buffer {
    pub(crate) fn new() -> Self
        ensures { result ≡ [] }
    {
        Buffer {
            bytes: [0; 64],
            from: 0,
            to: 0,
        }
    }

    pub(crate) fn as_slice(&self) -> &[u8]
        ensures { result.now ≡ self.now }
    {
        &self.bytes[self.from..self.to]
    }

    pub(crate) fn is_empty(&self) -> bool
        ensures { IsTrue result ↔ (self.now ≡ []) }
    {
        self.as_slice().is_empty()
    }

    /// Lets the first bytes go.
    pub(crate) fn skip(&mut self, count: usize)
        requires { count ≤ length self.old }
        ensures { self.new ≡ drop count self.old }
    {
        self.from += count;
    }

    /// Reads into an empty buffer. It stays empty at the end of the input alone.
    pub(crate) fn fill<S: Source>(&mut self, source: &mut S) -> Result<(), Failed>
        requires { self.old ≡ [] }
        ensures bytes { OnOk result (S.left source.old ≡ preceded self.new (S.left source.new)) }
        ensures end { OnOk result (IsEndOfInput (S.left source.old) (length self.new)) }
        ensures err { OnErr result ((self.new ≡ []) × (S.left source.new ≡ S.left source.old)) }
        ensures cause { HasCause (S.faults source.old) (S.faults source.new) result }
    {
        self.from = 0;
        self.to = 0;
        self.to = source.read(&mut self.bytes)?;
        Ok(())
    }

    /// Reads where nothing is buffered. It stays empty at the end of the input alone. What is to come is as before, also where
    /// the source fails.
    pub(crate) fn refill<S: Source>(&mut self, source: &mut S) -> Result<(), Failed>
        ensures bytes { preceded self.old (S.left source.old) ≡ preceded self.new (S.left source.new) }
        ensures end { OnOk result (self.new ≡ [] → IfSome (S.left source.new) (λ bytes. bytes ≡ [])) }
        ensures cause { HasCause (S.faults source.old) (S.faults source.new) result }
    {
        if self.is_empty() {
            self.fill(source)?;
        }
        Ok(())
    }
}
