//! What a structure adds to its theory.

ghost use Rattle.link_laws.specs.InducedConstants.{InducedByPlace};

/// A structure induces one constant from each own constant of its domain, in order: with the translated class, and defined by
/// the image, unless that is the constant itself.
pub fn law_induced()
    ensures { InducedByPlace }
{}
