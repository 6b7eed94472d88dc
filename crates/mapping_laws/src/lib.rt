//! Which maps have images for what is translated along them: what holds only constants of a signature, along a map that has its
//! names; the images of a map, along the next one of a row of words; and, while the map of a link is made, each constant that comes
//! next. There is no code: each function here does nothing, and its contract is a law.
#![tactic(auto)]

pub mod mapping_laws;
