//! Workers are hired.
ghost use Rattle.std.specs.Prelude.{◌≡◌, ◌+◌, ◌<◌, ◌^◌, IfOk, OnOk, OnErr, IsOk};
ghost use Rattle.turn_meaning.specs.Passes.{IsIdleOf, HasJoinedAll};
ghost use Rattle.board_meaning.specs.Legal.{IsLegal};
ghost use Rattle.worker_crew.specs.Hired.{hired, with_more, AreAllOthers};
ghost use Rattle.worker_crew.specs.Workers.{AreWorkers};

use crate::{Crew, Worker};
use board_seats::{BoardPass, SharedBoard};
use lf_terms::Memory;
use module_graph::Subject;
use std::alloc::Global;

/// So many workers, each with a pass that is split from pass 0. `Memory`: there is no room for them all, and then no pass is split;
/// it does not come where no worker is asked for.
pub fn hire<S: Subject>(
    alloc: Global,
    board: &SharedBoard<S>,
    first: &mut BoardPass<S>,
    workers: u32,
) -> Result<Crew<S>, Memory>
    requires first { IsIdleOf board.now first.old × (first.old.number ≡ 0) }
    requires made { 0 < first.old.made }
    requires legal { IsLegal S.subject.dependencies first.old.seen }
    requires room { first.old.made + workers < 2 ^ 32 }
    ensures crew { IfOk result (λ crew. crew ≡ hired first.old workers) }
    ensures workers { IfOk result (λ crew. AreWorkers S.subject.dependencies board.now crew) }
    ensures all { HasJoinedAll first.old → IfOk result (λ crew. AreAllOthers first.new crew) }
    ensures first { OnOk result (first.new ≡ with_more first.old workers) }
    ensures none { workers ≡ 0 → IsOk result }
    ensures unchanged { OnErr result (first.new ≡ first.old) }
{
    let mut crew = Vec::with_capacity(alloc, workers as usize)?;
    for _ in 0..workers {
        crew.push_reserved(Worker::new(board.split(first)?));
    }
    Ok(Crew { workers: crew })
}
