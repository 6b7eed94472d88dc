//! What a thread holds to take turns.
use crate::rule::Place;
use crate::story::Story;
use std::marker::Model;

/// A pass of a lock. It is seen as its lock, its number, the number of passes made (if it is pass 0), whether it has a turn, the
/// entries that it has seen, and the numbers of the passes joined into it.
///
/// A pass that is dropped cannot be joined, so its lock cannot be ended, and a turn that it has goes to nobody else.
#[derive(Drop)]
pub struct Pass<T: Story> {
    pub(crate) number: u32,
    /// 0 where it is not pass 0.
    pub(crate) made: u32,
    /// How many entries it has seen.
    pub(crate) count: u64,
    pub(crate) place: Place<T>,
}

impl<T: Story> Model for Pass<T> {
    ghost use Rattle.turn_meaning.specs.Passes as passes;
    ghost use Rattle.atomic_table.specs.Seated.{TableId};
    ghost use Rattle.turn_lock.specs.Views.{read_pass, IsPassAt};

    ghost Value = { passes.Pass TableId T.Entry };

    ghost view = { λ p. read_pass p.number p.made p.place };

    ghost invariant = { λ p. IsPassAt p.number p.made p.count p.place };
}
