//! A worker.
ghost use Rattle.std.specs.Prelude.{◌≡◌, ◌<◌, Ok};
ghost use Rattle.turn_meaning.specs.Passes.{IsIdleOf};
ghost use Rattle.worker_crew.specs.Worked.{HasWorked};

use board_seats::BoardPass;
use lf_terms::{Memory, Steps};
use mmt_outside::Gate;
use module_graph::Subject;
use std::marker::{Brand, Model};
use std::sync::Wait;
use std::sync::ledger::{Blank, Ledger};
use worker_loop::{Hall, work};

/// A worker: a pass of a shared board, and whether memory was wanting when the pass worked.
#[derive(Drop)]
pub struct Worker<S: Subject> {
    pub(crate) pass: BoardPass<S>,
    outcome: Result<(), Memory>,
}

impl<S: Subject> Model for Worker<S> {
    ghost use Rattle.atomic_table.specs.Seated.{TableId};
    ghost use Rattle.worker_crew.specs.Workers as crews;

    ghost Value = { crews.Worker TableId };

    ghost view = { λ w. record { pass = w.pass; outcome = w.outcome } };
}

impl<S: Subject> Worker<S> {
    /// A worker that has not worked.
    pub(crate) fn new(pass: BoardPass<S>) -> Worker<S>
        ensures { result ≡ record { pass = pass; outcome = Ok tt } }
    {
        Worker {
            pass,
            outcome: Ok(()),
        }
    }

    /// `Memory`: the work stopped for want of it.
    pub fn outcome(&self) -> Result<(), Memory>
        ensures { result ≡ self.now.outcome }
    {
        self.outcome
    }

    /// Works until the board is closed, or until memory is wanting.
    pub(crate) fn work<R: Wait, G: Gate>(&mut self, hall: &Hall<'_, R, S, G>)
        requires { IsIdleOf hall.now.board.now self.old.pass }
        ensures { HasWorked S.subject self.old self.new }
    {
        self.work_on::<Brand, R, G>(hall, Blank::new(1));
    }

    /// The same, with a counter of steps on this ledger.
    fn work_on<L: Ledger, R: Wait, G: Gate>(&mut self, hall: &Hall<'_, R, S, G>, blank: Blank)
        requires name { blank.name ≡ L.name }
        requires parts { blank.parts ≡ L.parts }
        requires some { 0 < blank.parts }
        requires idle { IsIdleOf hall.now.board.now self.old.pass }
        ensures { HasWorked S.subject self.old self.new }
    {
        let mut steps = Steps::<L>::new(blank);
        self.outcome = work(
            hall.rt,
            hall.alloc,
            hall.board,
            hall.subject,
            &mut self.pass,
            hall.gate,
            &mut steps,
        );
    }
}
