//! The second pass over a link (this profile): how the theories that its domain includes are covered.
#![tactic(auto)]

mod chosen;
mod cover_tables;
mod covering;
mod covering_refusals;
mod coverings;
mod identity;
mod images;
mod link_coverings;
mod seen;
mod shared_images;
mod tables;

pub use coverings::covering_map;
