//! The gate that a case asks for.

use crate::crowd::Crowd;
use crate::held::Held;
use mmt_outside::Gate;
use std::sync::Wait;
use test_texts::Case;

/// Of so many workers and more, this many are waited for: with six modules one is the last, and the front may judge another.
const MOST_HELD: u64 = 4;

/// The gate of a run: one that holds one worker, or all.
#[derive(Drop)]
pub(crate) enum CaseGate<'a> {
    Held(Held<'a>),
    Crowd(Crowd<'a>),
}

impl<'a> CaseGate<'a> {
    /// The gate that the case asks for, with this number of workers; where it asks for none, one that holds nobody.
    pub(crate) fn of(case: &Case<'a>, workers: &str) -> Self {
        if case.asks("crowd") {
            let wanted = workers.parse::<u64>().unwrap_or(0).min(MOST_HELD);
            return CaseGate::Crowd(Crowd::new(case.behind("crowd"), wanted));
        }
        let (held, awaited) = case.behind("held").split_once(' ').unwrap_or(("", ""));
        CaseGate::Held(Held::new(held, awaited))
    }

    /// Whether it has held whom it should, and each of them saw what it was held for.
    pub(crate) fn has_held(&self) -> bool {
        match self {
            CaseGate::Held(gate) => gate.has_seen_both(),
            CaseGate::Crowd(gate) => gate.has_held_all(),
        }
    }
}

impl Gate for CaseGate<'_> {
    fn before_install<R: Wait>(&self, rt: &R, worker: u32, name: &str) {
        match self {
            CaseGate::Held(gate) => gate.before_install(rt, worker, name),
            CaseGate::Crowd(gate) => gate.before_install(rt, worker, name),
        }
    }
}
