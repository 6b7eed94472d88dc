//! A source over bytes in memory.
ghost use Rattle.std.specs.Prelude.{◌≡◌, ◌↔◌, ◌<◌, ◌≤◌, ◌+◌, [], Some, length, take, drop, min, IfOk, OnOk, OnErr, IsErr, IsTrue};
ghost use Rattle.mmt_outside.specs.Bytes.{preceded, IsEndOfInput};
ghost use Rattle.mmt_outside.specs.Faults.{HasCause};
ghost use Rattle.mmt_outside.specs.Memory.{no_calls, next_fails, after_call};

use crate::calls::CallCount;
use crate::copying::copy_front;
use crate::{Failed, Inputs64, Source};
use lf_terms::Bytes;
use std::marker::Model;

/// Bytes to be read, and a list of the calls that fail. It is seen as the bytes left and its calls.
#[derive(Debug, Drop)]
pub struct MemSource {
    bytes: Bytes,
    at: usize,
    calls: CallCount,
}

impl Model for MemSource {
    ghost use Rattle.std.specs.Prelude.{◌≤◌, drop, length};
    ghost use Rattle.mmt_outside.specs.Memory.{SourceState};

    ghost Value = { SourceState };

    ghost view = { λ s. record { left = drop s.at s.bytes; calls = s.calls } };

    ghost invariant = { λ s. s.at ≤ length s.bytes };
}

impl MemSource {
    /// A source that has all of the bytes left. The call with each number of the list fails, from 1 on.
    pub fn new(bytes: Bytes, fails: Inputs64) -> Self
        ensures left { result.left ≡ bytes }
        ensures calls { result.calls ≡ no_calls fails }
    {
        MemSource {
            bytes,
            at: 0,
            calls: CallCount::new(fails),
        }
    }
}

impl Source for MemSource {
    ghost left = { λ s. Some s.left };

    ghost faults = { λ s. s.calls.faults };

    fn read(&mut self, into: &mut [u8]) -> Result<usize, Failed>
        // It fails exactly where the list says so, and else reads as much as there is and fits.
        ensures fails { IsErr result ↔ IsTrue (next_fails self.old.calls) }
        ensures calls { self.new.calls ≡ after_call self.old.calls }
        ensures steady { self.old.calls.fails ≡ [] → self.new.calls.faults ≡ self.old.calls.faults }
        ensures count { IfOk result (λ count. count ≡ min (length self.old.left) (length into.new)) }
        ensures after { IfOk result (λ count. self.new.left ≡ drop count self.old.left) }
        ensures front { IfOk result (λ count. take count into.new ≡ take count self.old.left) }
        ensures unread { OnErr result (self.new.left ≡ self.old.left) }

        // What the trait says.
        ensures within { IfOk result (λ count. count ≤ length into.new) }
        ensures bytes { IfOk result (λ count. Some self.old.left ≡ preceded (take count into.new) (Some self.new.left)) }
        ensures end { IfOk result (λ count. 0 < length into.new → IsEndOfInput (Some self.old.left) count) }
        ensures failed { OnErr result (Some self.new.left ≡ Some self.old.left) }
        ensures untouched { OnErr result (into.new ≡ into.old) }
        ensures cause { HasCause self.old.calls.faults self.new.calls.faults result }
    {
        self.calls.next()?;
        let count = copy_front(&self.bytes.as_slice()[self.at..], into);
        self.at += count;
        Ok(count)
    }
}
