//! A crew works.
ghost use Rattle.std.specs.Prelude.{◌≡◌, length};
ghost use Rattle.std.specs.List.{AllZip};
ghost use Rattle.turn_meaning.specs.Passes.{IsIdleOf};
ghost use Rattle.worker_crew.specs.Worked.{HasWorked};
ghost use Rattle.worker_crew.specs.Workers.{AreWorkers};

use crate::each_place::for_each_beside;
use crate::{Crew, Worker};
use mmt_outside::Gate;
use module_graph::Subject;
use std::sync::Wait;
use std::thread::Threads;
use worker_loop::Hall;

/// Each worker works, in a thread of its own where one can be made, until the board is closed. One that finds no memory ends, and
/// the others go on.
pub fn work_all<R: Threads + Wait + Sync, S: Subject, G: Gate + Sync>(
    hall: &Hall<'_, R, S, G>,
    crew: &mut Crew<S>,
)
    requires { AreWorkers S.subject.dependencies hall.now.board.now crew.old }
    ensures worked { AllZip (HasWorked S.subject) crew.old crew.new }
    ensures as_many { length crew.new ≡ length crew.old }
    ensures workers { AreWorkers S.subject.dependencies hall.now.board.now crew.new }
{
    for_each_beside(
        hall.rt,
        crew.workers.as_mut_slice(),
        &|_: usize, worker: &mut Worker<S>|
            requires { IsIdleOf hall.now.board.now worker.old.pass }
            ensures { HasWorked S.subject worker.old worker.new }
        {
            worker.work(hall);
        },
    );
}
