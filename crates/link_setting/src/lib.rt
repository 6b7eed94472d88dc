//! Where a link stands, what its assignments give, and why it is refused (this profile).
#![tactic(auto)]

mod assigned;
mod fault;
mod path_tree;
mod refusals;
mod setting;

pub use assigned::Assigned;
pub use fault::LinkFault;
pub use morphism_words::{Link, MorphFault, includes, meaning, sees, structures_link};
pub use names::Scope;
pub use path_tree::PathTree;
pub use refusals::{broken, demand, label_along};
pub use setting::Setting;
