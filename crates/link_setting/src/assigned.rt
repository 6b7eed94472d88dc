//! What assignments give.

use crate::Link;
use lf_terms::{Path, Span};
use mmt_syntax::Expr;

/// What an assignment gives. The first word of a row of words has a place, as bytes of the text, half open.
#[derive(Debug, Drop)]
pub enum Assigned<'a> {
    /// Theories that the domain includes are covered by a link.
    Covering {
        first: Span,
        by: Link,
    },
    /// A structure of the domain, or of a structure's domain and so on, with its own link into the domain, is shared by
    /// another link.
    Sharing {
        target: &'a Path,
        structure: Link,
        first: Span,
        by: Link,
    },
    /// An own constant of the domain is given a value.
    Giving {
        target: &'a Path,
        value: &'a Expr,
    },
}
