//! Hereditary substitution and long forms (Harper and Licata 2007, section 2), as `lf_meaning` and `eta_meaning` define them, over
//! terms in memory.
#![tactic(auto)]

mod long_forms;
mod reduction;
mod substitution;

pub use long_forms::{domain_count, eta, eta_fam};
pub use reduction::reduce;
pub use substitution::{subst_fam, subst_kind, subst_obj};
