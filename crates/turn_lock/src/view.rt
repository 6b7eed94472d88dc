//! What a seat at the lock's table knows. No value of these types is made.
use std::collections::LinkedList;

/// How far a pass is with its turn. The number is its ticket.
pub enum Stage {
    Idle,
    Drawn(u64),
    /// Its look has found that the turn is its own.
    Found(u64),
    /// It has made its note, and the value is in its hand.
    Noted(u64),
}

pub struct View<E> {
    /// The pass's number, and then the numbers of those joined into it. None for a pass that was joined into another.
    pub numbers: LinkedList<u64>,
    /// How many passes were made. Pass 0 alone keeps it.
    pub made: u64,
    pub stage: Stage,
    /// The entries that it has seen.
    pub seen: LinkedList<E>,
    /// In the middle of a join the numbers of the other pass, else none.
    pub other_numbers: LinkedList<u64>,
    /// In the middle of a join the entries that the other pass has seen, else none.
    pub other_seen: LinkedList<E>,
}
