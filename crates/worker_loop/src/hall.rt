//! What the front of a board and its workers share.
use board_seats::SharedBoard;
use module_graph::Subject;
use std::alloc::Global;

/// What the front of a board and its workers share: each works on the board through a pass of its own, and has all else from here.
#[derive(Drop)]
pub struct Hall<'a, R, S: Subject, G> {
    /// The handle by which threads are made and waited for.
    pub rt: &'a R,
    /// The allocator of whatever is made on the way.
    pub alloc: Global,
    /// The board, which all of them take in turn.
    pub board: &'a SharedBoard<S>,
    /// What the board is of: by it a worker judges modules.
    pub subject: &'a S,
    /// The gate, which is told of each module before its verdict is brought.
    pub gate: &'a G,
}
