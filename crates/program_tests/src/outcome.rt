//! What cases and runs come to.

use std::alloc::Global;

/// Bytes that are told. Where memory is wanting that is noted, so that what tells them has no second way out.
#[derive(Drop)]
pub(crate) struct Outcome {
    bytes: Vec<u8>,
    is_whole: bool,
}

impl Outcome {
    /// Nothing yet.
    pub(crate) fn new(alloc: Global) -> Outcome {
        Outcome {
            bytes: Vec::new(alloc),
            is_whole: true,
        }
    }

    pub(crate) fn add(&mut self, bytes: &[u8]) {
        self.is_whole &= self.bytes.extend_from_slice(bytes).is_ok();
    }

    /// Adds what a run came to, if the run before came to something else.
    pub(crate) fn add_new(&mut self, before: &Outcome, ended: &Outcome) {
        if ended.bytes.as_slice() != before.bytes.as_slice() {
            self.add(ended.bytes.as_slice());
        }
        self.is_whole &= ended.is_whole;
    }

    /// Notes that memory was wanting.
    pub(crate) fn fail(&mut self) {
        self.is_whole = false;
    }

    /// What was told, if memory was there for all of it.
    pub(crate) fn whole(&self) -> Option<&[u8]> {
        if self.is_whole {
            Some(self.bytes.as_slice())
        } else {
            None
        }
    }
}
