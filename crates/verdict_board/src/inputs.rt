//! The inputs of a claim.

use lf_terms::{Name, Sequence};

/// A name, and the version of its last edit when the claim was made; 0 where there was none.
#[derive(Debug, Drop)]
pub struct Input {
    pub name: Name,
    pub stamp: u32,
}

/// The inputs of a claim, in byte order of their names.
pub type Inputs = Sequence<Input>;
