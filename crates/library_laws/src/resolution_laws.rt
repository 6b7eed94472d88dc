//! What written paths stand for.

ghost use Rattle.library_meaning.specs.StandsFor.{ResolutionIsStanding};

/// A path stands for what it is resolved to, and for nothing else.
pub fn law_resolution()
    ensures { ResolutionIsStanding }
{}
