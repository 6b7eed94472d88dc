//! Where modules come from.

use crate::Place;
use lf_terms::{Bytes, Name, Sequence};

/// The file from which a module was read, and the place in it of the module's first byte.
#[derive(Debug, Drop)]
pub struct Origin {
    pub name: Name,
    pub file: Bytes,
    pub first: Place,
}

/// Origins.
pub type Origins = Sequence<Origin>;
