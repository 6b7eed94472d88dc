//! Lists of numbers.

use lf_terms::Sequence;

/// Numbers of calls, counted from 1: of those that fail.
pub type Inputs64 = Sequence<u64>;
