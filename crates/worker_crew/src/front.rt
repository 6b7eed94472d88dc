//! What leads the work on a board.
ghost use Rattle.std.specs.Prelude.{◌≡◌, true, []};
ghost use Rattle.turn_meaning.specs.Passes.{IsIdleOf};
ghost use Rattle.board_meaning.specs.Events.{History};
ghost use Rattle.board_meaning.specs.Legal.{IsLegal};
ghost use Rattle.board_meaning.specs.Ready.{is_closed};
ghost use Rattle.board_seats.specs.Seats.{Keeps};

use board_seats::BoardPass;
use mmt_outside::Gate;
use module_graph::Subject;
use std::sync::Wait;
use worker_loop::Hall;

/// A front plays on a board through pass 0, while workers bring verdicts. It takes from an input and gives to an output.
pub trait Front<S: Subject, I, O> {
    /// How it ended.
    type End: Drop + Send;

    // What it did: how it ended, the input before and after, the output before and after, and what pass 0 had then seen.
    ghost leads: { Self → Self.End → I → I → O → O → History → Type 0 };

    /// Plays on a board that has no entries, and closes it, for which the workers wait.
    fn lead<R: Wait, G: Gate>(
        &self,
        hall: &Hall<'_, R, S, G>,
        pass: &mut BoardPass<S>,
        input: &mut I,
        output: &mut O,
    ) -> Self::End
        requires idle { IsIdleOf hall.now.board.now pass.old }
        requires first { pass.old.number ≡ 0 }
        requires empty { pass.old.seen ≡ [] }
        ensures keeps { Keeps pass.old pass.new }
        ensures legal { IsLegal S.subject.dependencies pass.new.seen }
        ensures closed { is_closed pass.new.seen ≡ true }
        ensures leads { leads self.now result input.old input.new output.old output.new pass.new.seen };
}
