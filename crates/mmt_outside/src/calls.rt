//! The calls of an object in memory, and which of them fail.
ghost use Rattle.std.specs.Prelude.{◌≡◌, ◌↔◌, ◌≤◌, IsErr, IsTrue, OnOk};
ghost use Rattle.mmt_outside.specs.Memory.{no_calls, next_fails, after_call, with_fault};

use crate::{Failed, Inputs64};
use std::marker::Model;

/// Calls, seen as how many were made, the numbers of those that fail, and the count of faults.
#[derive(Debug, Drop)]
pub struct CallCount {
    made: u64,
    fails: Inputs64,
    faults: u64,
}

impl Model for CallCount {
    ghost use Rattle.mmt_outside.specs.Memory.{Calls};

    ghost Value = { Calls };

    ghost view = { λ c. record { made = c.made; fails = c.fails; faults = c.faults } };
}

impl CallCount {
    /// No calls yet. Those fail whose numbers, counted from 1, are in the list.
    pub fn new(fails: Inputs64) -> Self
        ensures { result ≡ no_calls fails }
    {
        CallCount {
            made: 0,
            fails,
            faults: 0,
        }
    }

    /// Counts a call, which fails where the list has its number.
    pub fn next(&mut self) -> Result<(), Failed>
        ensures fails { IsErr result ↔ IsTrue (next_fails self.old) }
        ensures after { self.new ≡ after_call self.old }
        ensures later { self.old.faults ≤ self.new.faults }
        ensures kept { OnOk result (self.new.faults ≡ self.old.faults) }
    {
        self.made = self.made.saturating_add(1);
        if self.fails.as_slice().contains(&self.made) {
            self.faults = self.faults.saturating_add(1);
            Err(Failed)
        } else {
            Ok(())
        }
    }

    /// Counts a fault of the call that was counted last.
    pub fn fault(&mut self) -> Failed
        ensures after { self.new ≡ with_fault self.old }
        ensures later { self.old.faults ≤ self.new.faults }
    {
        self.faults = self.faults.saturating_add(1);
        Failed
    }
}
