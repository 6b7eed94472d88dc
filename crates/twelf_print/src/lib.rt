//! Printed modules and expressions. Wherever some text spells the tree, what is printed spells it up to spans, and no
//! text that spells it has fewer parentheses. It is read again as that tree where nothing in it stands deeper than
//! 500. A declaration takes one line.
#![tactic(auto)]

mod expressions;
mod modules;
mod paths;
mod places;

pub use expressions::print_expr;
pub use modules::print_module;
