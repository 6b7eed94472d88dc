//! A crew is dismissed.
ghost use Rattle.std.specs.Prelude.{◌≡◌};
ghost use Rattle.turn_meaning.specs.Passes.{IsIdleOf, HasJoinedAll};
ghost use Rattle.board_meaning.specs.Events.{log_of};
ghost use Rattle.board_meaning.specs.Legal.{IsLegal};
ghost use Rattle.worker_crew.specs.Hired.{AreAllOthers};
ghost use Rattle.worker_crew.specs.TakenIn.{TakesIn};
ghost use Rattle.worker_crew.specs.Workers.{AreWorkers};

use crate::Crew;
use board_seats::{BoardPass, SharedBoard};
use module_graph::Subject;

/// Joins the passes of all workers into pass 0, in their order. It takes no memory.
pub fn dismiss<S: Subject>(board: &SharedBoard<S>, first: &mut BoardPass<S>, crew: Crew<S>)
    requires first { IsIdleOf board.now first.old × (first.old.number ≡ 0) }
    requires legal { IsLegal S.subject.dependencies first.old.seen }
    requires workers { AreWorkers S.subject.dependencies board.now crew }
    ensures takes_in { TakesIn S.subject.dependencies first.old crew first.new }
    ensures log { log_of first.new.seen ≡ log_of first.old.seen }
    ensures all { AreAllOthers first.old crew → HasJoinedAll first.new }
{
    for worker in crew.workers {
        board.join(first, worker.pass);
    }
}
