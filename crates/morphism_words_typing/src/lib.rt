//! Typed faces, and what words and rows of them mean over these: links with typed maps. There is no code: the function here
//! does nothing, and its contract is a law.
#![tactic(auto)]

pub mod row_laws;
