//! Whether calls succeed.

/// Whether a call succeeded. What it answers is let go here, and not behind each call, where that would be proved anew.
pub fn succeeds<T: Drop, E: Drop>(answer: Result<T, E>) -> bool {
    answer.is_ok()
}
