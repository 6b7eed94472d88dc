//! Lists of tokens.

use crate::Token;
use lf_terms::Sequence;

/// Tokens.
pub type TokenList = Sequence<Token>;
