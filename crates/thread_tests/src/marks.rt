//! The value under the lock.
ghost use Rattle.std.specs.Prelude.{◌≡◌, [], ◌∷◌, ◌++◌, length, OnOk, OnErr};

use lf_terms::Memory;
use std::alloc::Global;
use turn_lock::Story;

/// The numbers of the passes that added to it, in order.
#[derive(Drop)]
pub struct Marks {
    pub marks: Vec<u32>,
}

impl Marks {
    pub fn new(alloc: Global) -> Marks
        ensures { result.marks.items ≡ [] }
    {
        Marks {
            marks: Vec::new(alloc),
        }
    }

    pub fn add(&mut self, mark: u32) -> Result<(), Memory>
        ensures added { OnOk result (self.new.marks.items ≡ self.old.marks.items ++ mark ∷ []) }
        ensures same { OnErr result (self.new.marks.items ≡ self.old.marks.items) }
    {
        self.marks.push(mark)?;
        Ok(())
    }
}

impl Story for Marks {
    type Entry = u32;

    ghost entries = { λ value. value.marks.items };

    ghost number = { λ mark. mark };

    fn count(&self) -> u64 {
        self.marks.len() as u64
    }
}
