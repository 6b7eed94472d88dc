//! How a worker holds back where its turns would hold up those of others.

use crate::SharedBoard;
use crate::waits::MOST_LOOKS;
use module_graph::Subject;
use std::sync::Wait;

/// So many looks in a row have to find modules long before a worker takes its first turn.
const FIRST_LOOKS: u32 = 3;

/// In so many turns in a row a pass waited behind the worker, so the turns are short, or whoever waits gets no processor.
const MOST_CROWDED: u32 = 10;

/// How careful a worker is before it takes turns.
#[derive(Drop)]
pub struct Pace {
    /// How many looks in a row have to find modules long.
    looks: u32,
    /// Behind how many turns in a row a pass waited.
    crowded: u32,
}

impl Pace {
    /// Of a worker that has taken no turn.
    pub fn new() -> Pace {
        Pace {
            looks: FIRST_LOOKS,
            crowded: 0,
        }
    }

    /// Sleeps until what is judged is long enough to be shared, and at most for some seconds. A close ends it.
    pub fn wait<R: Wait, S: Subject>(&self, rt: &R, board: &SharedBoard<S>) {
        board.wait_while_short(rt, self.looks);
    }

    /// What follows a turn. Where others waited behind too many turns in a row, the worker steps back, and looks for twice as long from
    /// then on: each look may be wrong where other programs take the processors.
    pub fn after_turn<R: Wait, S: Subject>(&mut self, rt: &R, board: &SharedBoard<S>) {
        if !board.is_crowded() {
            self.crowded = 0;
            return;
        }
        self.crowded = self.crowded.saturating_add(1);
        if self.crowded < MOST_CROWDED {
            return;
        }
        self.crowded = 0;
        self.looks = self.looks.saturating_mul(2).min(MOST_LOOKS);
        self.wait(rt, board);
    }
}
