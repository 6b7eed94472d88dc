//! Values that are borrowed as long as they serve as they are.
ghost use Rattle.std.specs.Prelude.{◌≡◌};
ghost use Rattle.elaborate.specs.LentValues.{value_of};

/// A value that is borrowed, or one that was made.
#[derive(Drop)]
pub(crate) enum Lent<'a, T> {
    Borrowed(&'a T),
    Made(Box<T>),
}

impl<'a, T: Drop> Lent<'a, T> {
    /// The value.
    pub(crate) fn get(&self) -> &T
        ensures { result.now ≡ value_of self.now }
    {
        match self {
            Lent::Borrowed(value) => value,
            Lent::Made(value) => value,
        }
    }
}
