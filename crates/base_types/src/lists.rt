//! The lists that all crates share.

use crate::{Name, Sequence};

/// Bytes.
pub type Bytes = Sequence<u8>;

/// Texts, in UTF-8.
pub type Texts = Sequence<String>;

/// Names, in order.
pub type Names = Sequence<Name>;

/// The numbers that lead to a place in a term, from the outside in.
pub type TermPath = Sequence<u32>;
