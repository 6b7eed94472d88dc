//! Sleeps of a bounded time that others may end.

use std::sync::Wait;
use std::sync::atomic::AtomicU64;
use std::sync::atomic::Ordering::SeqCst;
use std::time::Duration;

/// A sleep is told by the last bits of a count whether the bell rang before it: those of a count below this number.
const TOLD: u64 = 1 << 32;

/// A bell that ends the sleeps of those that wait for it. No sleep lasts longer than it was asked to, whether or not the bell rings.
#[derive(Drop)]
pub(crate) struct Bell {
    /// How often it rang.
    rings: AtomicU64,
    /// How many sleep, or are about to.
    sleepers: AtomicU64,
}

impl Bell {
    /// It has not rung.
    pub(crate) fn new() -> Bell {
        Bell {
            rings: AtomicU64::new(0),
            sleepers: AtomicU64::new(0),
        }
    }

    /// How often it rang so far.
    pub(crate) fn rings(&self) -> u64 {
        self.rings.load(SeqCst)
    }

    /// Sleeps until it rings, or so long; not at all where it rang more often than `heard` says.
    pub(crate) fn sleep<R: Wait>(&self, rt: &R, heard: u64, longest: Duration) {
        self.sleepers.fetch_add(1, SeqCst);
        self.rings.park_timeout(rt, (heard % TOLD) as u32, longest);
        self.sleepers.fetch_sub(1, SeqCst);
    }

    /// Rings, and wakes one that sleeps.
    pub(crate) fn ring_for_one(&self) {
        self.rings.fetch_add(1, SeqCst);
        if self.sleepers.load(SeqCst) > 0 {
            self.rings.wake_one();
        }
    }

    /// Rings, and wakes all that sleep.
    pub(crate) fn ring_for_all(&self) {
        self.rings.fetch_add(1, SeqCst);
        if self.sleepers.load(SeqCst) > 0 {
            self.rings.wake_all();
        }
    }
}
