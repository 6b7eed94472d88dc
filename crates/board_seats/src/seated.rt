//! The board as a value under a turn lock.
ghost use Rattle.std.specs.Prelude.{◌≡◌};
ghost use Rattle.board_meaning.specs.Legal.{IsLegal};
ghost use Rattle.board_meaning.specs.Points.{number_of};

use crate::entry::SeenEntry;
use module_graph::Subject;
use std::marker::Model;
use turn_lock::{Pass, Story};
use verdict_board::Board;

/// A pass of a shared board.
pub type BoardPass<S> = Pass<Seated<S>>;

/// A board under a lock. It is seen as the board that it holds.
#[derive(Drop)]
pub struct Seated<S: Subject> {
    board: Board<S>,
    /// How many entries the board has. The lock asks for it, and cannot ask the board.
    count: u64,
}

impl<S: Subject> Model for Seated<S> {
    ghost use Rattle.std.specs.Prelude.{◌≡◌, length};
    ghost use Rattle.board_meaning.specs.Events.{History};

    ghost Value = { History };

    ghost view = { λ s. s.board };

    ghost invariant = { λ s. s.count ≡ length s.board };
}

impl<S: Subject> Seated<S> {
    pub(crate) fn new(board: Board<S>) -> Seated<S>
        ensures { result ≡ board }
    {
        let count = board.entries();
        Seated { board, count }
    }

    /// The board, whose history is legal.
    pub(crate) fn into_board(self) -> Board<S>
        ensures board { result ≡ self }
        ensures legal { IsLegal S.subject.dependencies result }
    {
        let Seated { board, count: _ } = self;
        let _ = board.entries();
        board
    }
}

impl<S: Subject> Story for Seated<S> {
    type Entry = SeenEntry;

    ghost entries = { λ seated. seated };

    ghost number = { number_of };

    fn count(&self) -> u64 {
        self.count
    }
}
