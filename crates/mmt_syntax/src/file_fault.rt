//! What is wrong with files.

use crate::Place;
use lf_terms::{Bytes, Name, Sequence};

/// The cause of a fault.
#[derive(Clone, Copy, Debug, PartialEq, Eq)]
pub enum FileWord {
    TooLong,
    Syntax,
    Unsupported,
    DuplicateName,
    TooMany,
    Full,
}

/// A fault of a file, the place in it, and the name that it is about, where there is one.
#[derive(Debug, Drop)]
pub struct FileFault {
    pub file: Bytes,
    pub place: Place,
    pub word: FileWord,
    pub about: Option<Name>,
}

/// Faults of files.
pub type FileFaults = Sequence<FileFault>;
