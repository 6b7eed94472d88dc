//! What a board answers.

use lf_terms::Name;

/// The reply to an install: the verdict was installed, or an input has changed, which is named with its present stamp.
#[derive(Debug, Drop)]
pub enum Installed {
    Installed,
    Stale { name: Name, newer: u32 },
}

/// What is told of a name, with the version: its verdict, that a verdict is to come, or that the library lacks the name.
#[derive(Debug, Drop)]
pub enum Told<A> {
    Verdict { answer: A, version: u32 },
    Pending { version: u32 },
    Absent { version: u32 },
}
