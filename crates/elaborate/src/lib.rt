//! Expansion (this profile): the terms that written expressions stand for, with the first fault where one stands for none.
//! Heads take their arguments hereditarily (Harper and Licata 2007, section 2).
#![tactic(auto)]

mod calls;
mod closed;
mod context;
mod fault;
mod given;
mod heads;
mod kinds;
mod lent;
mod outcomes;
mod terms;
mod values;

pub use calls::{
    elab_class, elab_class_tabled, elab_fam, elab_kind, elab_obj, elab_value, elab_value_tabled,
};
pub use fault::ElabFault;
