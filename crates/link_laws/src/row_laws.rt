//! Rows of words, and scopes.

ghost use Rattle.link_laws.specs.LinkTargets.{RowsAreCoherent};
ghost use Rattle.link_laws.specs.TheoryScopes.{TheoryScopesHold};

/// A row of words means a link with a coherent map, over coherent faces.
pub fn law_rows()
    ensures { RowsAreCoherent }
{}

/// The scope of an accepted theory declares each name once, over what stands before it.
pub fn law_scopes()
    ensures { TheoryScopesHold }
{}
