//! A gate that holds all workers.

use mmt_outside::Gate;
use std::sync::Wait;
use std::sync::atomic::AtomicU64;
use std::sync::atomic::Ordering::SeqCst;
use std::time::Duration;

/// Who is held looks so often, and sleeps for so many microseconds between two looks. Together that is twenty seconds.
const LOOKS: u32 = 4_000;

const NAP: u64 = 5_000;

/// A sleep is told by the last bits of a count whether it has changed: those of a count below this number.
const TOLD: u64 = 1 << 32;

/// A gate that holds each worker until a judgement of the last module begins, whoever judges it, and the front at each other module until
/// enough workers are held. A front that waits for its workers never gets out but by the limit.
#[derive(Drop)]
pub struct Crowd<'a> {
    last: &'a str,
    /// How many workers have to be held before the front goes on.
    wanted: u64,
    held: AtomicU64,
    /// 1 once a call for the last module has begun.
    last_begun: AtomicU64,
    limits_met: AtomicU64,
}

impl<'a> Crowd<'a> {
    /// The gate that holds the front until so many workers are held, and each worker until a call for the module of this name has begun.
    pub fn new(last: &'a str, wanted: u64) -> Self {
        Crowd {
            last,
            wanted,
            held: AtomicU64::new(0),
            last_begun: AtomicU64::new(0),
            limits_met: AtomicU64::new(0),
        }
    }

    /// Whether so many workers were held, and whoever was held saw what it was held for.
    pub fn has_held_all(&self) -> bool {
        self.held.load(SeqCst) >= self.wanted && self.limits_met.load(SeqCst) == 0
    }

    /// Waits until a count has come to a number, and notes where it never does.
    fn hold<R: Wait>(&self, rt: &R, count: &AtomicU64, number: u64) {
        for _ in 0..LOOKS {
            let seen = count.load(SeqCst);
            if seen >= number {
                return;
            }
            count.park_timeout(rt, (seen % TOLD) as u32, Duration::from_micros(NAP));
        }
        self.limits_met.store(1, SeqCst);
    }
}

impl Gate for Crowd<'_> {
    fn before_install<R: Wait>(&self, rt: &R, worker: u32, name: &str) {
        if name == self.last {
            self.last_begun.store(1, SeqCst);
            self.last_begun.wake_all();
        } else if worker > 0 {
            self.held.fetch_add(1, SeqCst);
            self.held.wake_all();
            self.hold(rt, &self.last_begun, 1);
        } else {
            self.hold(rt, &self.held, self.wanted);
        }
    }
}
