//! The history of a board, which contracts alone read.
ghost use Rattle.std.specs.Prelude.{◌≡◌, List, [], ◌∷◌, ◌++◌};
ghost use Rattle.std.specs.Borrow.{ftrue};
ghost use Rattle.board_meaning.specs.Events as board;
ghost use Rattle.verdict_board.specs.Entries.{read_entry, read_event, entry};

use crate::{Entry, Event};
use std::marker::Model;

/// Entries in order. It takes no memory, and its calls do nothing when the program runs.
#[derive(Drop)]
pub struct Trail {
    pub ghost entries: { List board.Entry },
}

impl Model for Trail {
    ghost also_owns = { λ _. ftrue };
}

// It owns nothing, so it crosses threads.
unsafe impl Send for Trail {}

unsafe impl Sync for Trail {}

impl Trail {
    /// No entries.
    pub fn new() -> Trail
        ensures { result.entries ≡ [] }
    {
        Trail {}
    }

    /// One entry more.
    pub fn with(_before: &Trail, _entry: &Entry) -> Trail
        ensures { result.entries ≡ _before.now.entries ++ read_entry _entry.now ∷ [] }
    {
        Trail {}
    }
}

/// One entry more, of this pass, with this version and event.
pub fn noted(before: &Trail, pass: u32, version: u32, event: Event) -> Trail
    ensures { result.entries ≡ before.now.entries ++ entry pass version (read_event event) ∷ [] }
{
    let entry = Entry {
        pass,
        version,
        event,
    };
    Trail::with(before, &entry)
}
