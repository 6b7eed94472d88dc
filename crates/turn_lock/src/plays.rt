//! What each step on the table tells, and how views are cut and joined. These types are for the proofs alone.
use crate::story::Story;
use crate::view::View;
use atomic_table::{Join, Play, Split};
use std::marker::{Brand, PhantomData};

pub struct Draw;

impl<T, E> Play<Option<T>, View<E>> for Draw {
    ghost use Rattle.turn_lock.specs.Steps.{drew};

    ghost then = { drew };
}

pub struct Look;

impl<T, E> Play<Option<T>, View<E>> for Look {
    ghost use Rattle.turn_lock.specs.Steps.{looked};

    ghost then = { looked };
}

pub struct Note;

impl<T: Story> Play<Option<T>, View<T::Entry>> for Note {
    ghost use Rattle.turn_lock.specs.Steps.{noted};

    ghost then = { noted T.entries T.number };
}

/// Which entries a step adds. Each call of a program picks them.
pub trait Adding<E> {
    ghost use Rattle.std.specs.Prelude.{List};

    ghost added: { List E };
}

impl<E> Adding<E> for Brand {
    ghost use Rattle.std.specs.Prelude.{[]};

    ghost added = { [] };
}

pub struct Enter<N> {
    adding: PhantomData<N>,
}

impl<T, E, N: Adding<E>> Play<Option<T>, View<E>> for Enter<N> {
    ghost use Rattle.turn_lock.specs.Steps.{entered};

    ghost then = { entered N.added };
}

pub struct PassOn;

impl<T, E> Play<Option<T>, View<E>> for PassOn {
    ghost use Rattle.turn_lock.specs.Steps.{passed};

    ghost then = { passed };
}

pub struct Tell;

impl<T: Story> Play<Option<T>, View<T::Entry>> for Tell {
    ghost use Rattle.turn_lock.specs.Steps.{told};

    ghost then = { told T.number };
}

pub struct Merge;

impl<T: Story> Play<Option<T>, View<T::Entry>> for Merge {
    ghost use Rattle.turn_lock.specs.Steps.{merged};

    ghost then = { merged T.number };
}

/// How pass 0 makes a pass.
pub struct OneMore;

impl<E> Split<View<E>> for OneMore {
    ghost use Rattle.turn_lock.specs.Views.{with_one_more, split_view};

    ghost left = { with_one_more };

    ghost right = { split_view };
}

/// How a pass takes in another.
pub struct Beside;

impl<E> Join<View<E>> for Beside {
    ghost use Rattle.turn_lock.specs.Views.{with_other, spent_view};

    ghost both = { with_other };

    ghost spent = { spent_view };
}
