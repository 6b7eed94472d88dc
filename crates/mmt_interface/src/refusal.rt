//! Why a module is refused.

use crate::Rule;
use lf_terms::{Path, Span};

/// A rule that is broken at a place of the text, with the path of the declaration, assignment or module that is
/// concerned. Where the text does not read (`Syntax`, `TooDeep`, `Unsupported`) the span is empty: it begins and ends
/// where reading stops.
#[derive(Debug, Drop)]
pub struct Refusal {
    pub span: Span,
    pub rule: Rule,
    pub label: Path,
}
