//! Morphisms.
ghost use Rattle.std.specs.Prelude.{◌<◌, length};

use crate::Words;

/// A row of words, at least one, which are composed from left to right.
#[derive(Debug, Drop)]
pub struct Morph {
    pub words: Words,
    ghost some: { 0 < length words },
}
