//! The entries of a history, which contracts alone read.

use std::marker::Model;
use verdict_board::Entry;

/// An entry of a board's history, as contracts see it. No value of it is made.
pub struct SeenEntry {
    pub entry: Entry,
}

impl Model for SeenEntry {
    ghost use Rattle.board_meaning.specs.Events as board;
    ghost use Rattle.verdict_board.specs.Entries.{read_entry};

    ghost Value = { board.Entry };

    ghost view = { λ e. read_entry e.entry };
}
