//! What happens on a board.

use lf_terms::{Arc, Bytes, Name};

/// A text was put under a name, or a name was dropped; a name was claimed; the claim that is the entry at this place of the
/// history ended: its verdict was installed, or an input of this name was found to have this newer stamp, or it was released;
/// or the board was closed. Places are counted from 0.
#[derive(Debug, Drop)]
pub enum Event {
    Put { name: Name, text: Arc<Bytes> },
    Drop(Name),
    Claim(Name),
    Install { claim: u64 },
    Stale { claim: u64, name: Name, newer: u32 },
    Release { claim: u64 },
    Close,
}

/// What happened, the number of the pass that did it, and the version afterwards.
#[derive(Debug, Drop)]
pub struct Entry {
    pub pass: u32,
    pub version: u32,
    pub event: Event,
}
