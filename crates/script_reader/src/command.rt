//! What a script can say.

use lf_terms::{Bytes, Name};

/// A command, a line that says nothing, or the end of the script.
#[derive(Drop)]
pub enum Command {
    /// A text is put under a name. A text that is longer than 1,048,576 bytes is kept as far as it shows that.
    Put { name: Name, text: Bytes },
    /// A name is dropped.
    Drop(Name),
    /// The verdict of a name is asked for.
    Report(Name),
    /// The verdicts of all names are asked for.
    Check,
    /// The flat text of a name is asked for.
    Flat(Name),
    /// A judgement is to be carried along a view. Its text is not empty, and need not be UTF-8.
    Carry { view: Name, text: Bytes },
    /// The log is asked for.
    Log,
    /// A blank line or a comment.
    Blank,
    /// Nothing is left of the script.
    End,
}
