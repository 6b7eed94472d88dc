//! Why a judgement does not hold.

use lf_terms::TermPath;

/// The first fault of a judgement, or want of memory.
///
/// A place is a path of numbers from the outside in: 0 enters a domain or the body of a λ, 1 the body of a Π, 2 + i
/// argument i, counted from 0; the empty path is the term itself. A number past the greatest of a `u32` is want of
/// memory.
#[derive(Debug, Drop)]
pub enum LfFault {
    /// A name that is not declared or is defined, or a variable past the context.
    UnknownConstant { at: TermPath },
    /// An argument whose classifier so far is no Π.
    NotAFunction { at: TermPath },
    /// An atomic object at a Π, or an atomic family whose remaining kind is not `type`.
    NotCanonical { at: TermPath },
    /// A λ at an atomic family, a term of another classifier, or a family with another number of binders.
    Mismatch { at: TermPath },
    /// A family constant where an object stands, or an object constant where a family stands.
    Level { at: TermPath },
    Memory,
}

/// The first bad declaration of a signature, or want of memory.
#[derive(Debug, Drop)]
pub enum SigFault {
    /// The index counts declarations from 0. The path of the fault begins with 0 for the class and 1 for the value; the
    /// binders of a family value add no number. The fault is never want of memory.
    Bad { index: usize, fault: LfFault },
    Memory,
}
