//! Judgements carried along views (Rabe and Kohlhase 2013, section 4: morphisms carry judgements).
#![tactic(auto)]

mod carrying;

pub use carrying::carry;
