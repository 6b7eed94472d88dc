//! Where a link stands.

use lf_terms::Name;
use mmt_interface::TheoryFace;
use mmt_syntax::Written;
use names::Scope;

/// A link from a theory into another: its ends; the theory that is being built, for words that begin with its name, or none
/// for a view; the scope of its values, which has the own part and the inclusion closure of the codomain, so far; the name of
/// the structure, or none for a view; and the link's own name, at its place.
#[derive(Clone, Copy, Debug)]
pub struct Setting<'a> {
    pub here: Option<&'a TheoryFace>,
    pub domain: &'a Name,
    pub codomain: &'a Name,
    pub scope: Scope<'a>,
    pub structure: Option<&'a Name>,
    pub at: &'a Written,
}
