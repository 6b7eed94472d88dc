//! The table under the lock.
use crate::story::Story;
use crate::view::View;
use atomic_table::{Seat, Shared, Table, TableRule};
use std::alloc::Global;
use std::snapshot::Snapshot;

/// The rule of the lock. It is told the value with which the lock begins.
pub struct TurnRule;

impl<T: Story> TableRule<Option<T>, View<T::Entry>, Snapshot<T>> for TurnRule {
    ghost use Rattle.turn_lock.specs.Rule.{IsKept};
    ghost use Rattle.turn_lock.specs.Views.{first_view};

    ghost holds = { λ _. IsKept T.entries T.number };

    ghost first = { λ key. first_view (T.entries key.value) };
}

pub type TurnTable<T> = Table<Option<T>, View<<T as Story>::Entry>, Snapshot<T>, TurnRule, Global>;

pub type Top<T> = Shared<Option<T>, View<<T as Story>::Entry>, Snapshot<T>, TurnRule>;

pub type Place<T> = Seat<Option<T>, View<<T as Story>::Entry>>;
