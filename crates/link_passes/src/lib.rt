//! The third and the fourth pass over a link (Rabe and Kohlhase 2013, section 3: what a morphism assigns; the order of tests is
//! this profile).
#![tactic(auto)]

mod images;
mod induced;
mod labels;
mod passes;
mod reached;
mod sharing;
mod targets;
mod translated;
mod values;

pub use induced::induced_constant;
pub use link_setting::{
    Assigned, Link, LinkFault, MorphFault, Scope, Setting, includes, label_along, meaning,
    structures_link,
};
pub use passes::own_passes;
