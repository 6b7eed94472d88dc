//! Views, checked (Rabe and Kohlhase 2013, section 3).
#![tactic(auto)]

mod views;

pub use views::check_view;
