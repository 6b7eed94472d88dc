//! The judgements of Canonical LF (Harper and Licata 2007, section 2) over terms in memory, with the first fault and
//! its place where one does not hold (this profile).
#![tactic(auto)]

mod environment;
mod families;
mod faults;
mod judgements;
mod objects;
mod signatures;
mod stops;

pub use faults::{LfFault, SigFault};
pub use judgements::{check_fam, check_kind, check_obj, synth};
pub use signatures::check_sig;
