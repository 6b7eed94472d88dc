//! The map of a link, from its four passes; and the second pass alone, over what the first gives (this profile). The words of
//! morphisms are had from `morphism_words`.
#![tactic(auto)]

mod links;
mod second_pass;

pub use assignment_pass::{codomain_sees, is_or_includes, read_assigns};
pub use covering_pass::covering_map;
pub use link_passes::{
    Assigned, Link, LinkFault, MorphFault, Scope, Setting, includes, induced_constant, label_along,
    meaning, structures_link,
};
pub use links::link_map;
pub use second_pass::cover;
