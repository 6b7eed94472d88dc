//! A gate that holds one worker until another has come as far.

use mmt_outside::Gate;
use std::sync::Wait;
use std::sync::atomic::AtomicU64;
use std::sync::atomic::Ordering::SeqCst;

/// How often a held call looks for the other one before it gives up.
const MOST_LOOKS: u32 = 100_000_000;

/// A gate that holds the first call for one module until a call for another has begun. A program on one thread never gets out but by
/// the limit.
#[derive(Drop)]
pub struct Held<'a> {
    held: &'a str,
    awaited: &'a str,
    held_calls: AtomicU64,
    awaited_calls: AtomicU64,
    limits_met: AtomicU64,
}

impl<'a> Held<'a> {
    /// The gate that holds the first call for the first of these modules until a call for the second has begun.
    pub fn new(held: &'a str, awaited: &'a str) -> Self {
        Held {
            held,
            awaited,
            held_calls: AtomicU64::new(0),
            awaited_calls: AtomicU64::new(0),
            limits_met: AtomicU64::new(0),
        }
    }

    /// Whether the gate was called for both modules, and the held call saw that the other had begun.
    pub fn has_seen_both(&self) -> bool {
        self.held_calls.load(SeqCst) > 0
            && self.awaited_calls.load(SeqCst) > 0
            && self.limits_met.load(SeqCst) == 0
    }

    /// Looks until a call for the awaited module has begun, and notes where it never does.
    fn hold(&self) {
        for _ in 0..MOST_LOOKS {
            if self.awaited_calls.load(SeqCst) > 0 {
                return;
            }
        }
        self.limits_met.store(1, SeqCst);
    }
}

impl Gate for Held<'_> {
    fn before_install<R: Wait>(&self, _rt: &R, _worker: u32, name: &str) {
        if name == self.awaited {
            self.awaited_calls.store(1, SeqCst);
        }
        if name == self.held && self.held_calls.swap(1, SeqCst) == 0 {
            self.hold();
        }
    }
}
