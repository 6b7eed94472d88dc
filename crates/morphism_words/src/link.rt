//! Links.

use lf_terms::{HeadMap, Name};

/// A map from the flat signature of one theory to that of another.
#[derive(Debug, Drop)]
pub struct Link {
    pub domain: Name,
    pub codomain: Name,
    pub map: HeadMap,
}
