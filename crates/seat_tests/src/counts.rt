//! The modules that a front puts, and what is left of a board.

use crate::sizes::Sizes;
use lf_terms::{Memory, Name};
use std::alloc::Global;
use verdict_board::Board;

/// The names of a text, with a blank between.
pub fn names(alloc: Global, text: &str) -> Result<Vec<Name>, Memory> {
    let mut names = Vec::new(alloc);
    if are_named(alloc, &mut names, text) {
        Ok(names)
    } else {
        drop(names);
        Err(Memory)
    }
}

fn are_named(alloc: Global, names: &mut Vec<Name>, text: &str) -> bool {
    let mut all = true;
    for word in text.split(' ') {
        all = all && is_named(alloc, names, word);
    }
    all
}

fn is_named(alloc: Global, names: &mut Vec<Name>, word: &str) -> bool {
    match Name::new(alloc, word) {
        Ok(name) => names.push(name).is_ok(),
        Err(_) => false,
    }
}

/// Whether all was told and done and the board is closed, and its entries, installs and version.
pub type Counts = (bool, u64, u64, u32);

/// Those of no board.
pub const NO_COUNTS: Counts = (false, 0, 0, 0);

/// The counts of a board, which is let go, and whether all was told and done on it.
pub fn counts(left: (Board<Sizes>, bool)) -> Counts {
    let (board, done) = left;
    let counts = (
        done && board.closed(),
        board.entries(),
        board.installs(),
        board.version(),
    );
    drop(board);
    counts
}
