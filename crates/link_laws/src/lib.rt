//! The laws that tie the passes over a link to its equations, and those of coherence: a row of words means a coherent map, the
//! scope of an accepted theory declares each name once, over what stands before it, and a structure induces one constant from each
//! own constant of its domain. The maps of links are coherent by a lemma in `proofs/`. There is no code: each function here does
//! nothing, and its contract is a law.
#![tactic(auto)]

pub mod covering_laws;
pub mod induced_laws;
pub mod link_laws;
pub mod row_laws;
