//! Values that are shared, also across threads.
ghost use Rattle.std.specs.Prelude.{◌≡◌, IfOk};

use crate::Memory;
use std::alloc::Global;
use std::marker::Model;
use std::sync::Arc as StdArc;

/// A shared value, seen as the value.
#[derive(Debug, Drop)]
pub struct Arc<X> {
    inner: StdArc<X>,
}

impl<X> Model for Arc<X> {
    ghost use Rattle.std.specs.Arc.{arc_value};

    ghost Value = { X };

    ghost view = { λ a. arc_value a.inner };
}

impl<X: Drop> Arc<X> {
    /// The value, for its first owner.
    pub fn new(alloc: Global, value: X) -> Result<Self, Memory>
        ensures { IfOk result (λ shared. shared ≡ value) }
    {
        Ok(Arc {
            inner: StdArc::new(alloc, value)?,
        })
    }

    /// The same value, for one owner more.
    pub fn share(&self) -> Result<Self, Memory>
        ensures { IfOk result (λ shared. shared ≡ self.now) }
    {
        Ok(Arc {
            inner: self.inner.clone()?,
        })
    }

    /// The value.
    pub fn get(&self) -> &X
        ensures { result.now ≡ self.now }
    {
        &self.inner
    }
}
