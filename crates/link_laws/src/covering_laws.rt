//! The second pass over a link by itself.

ghost use Rattle.link_laws.specs.CoveringLaws.{CoveringMapMeetsCoverings, OneMapMeetsCoverings, CoveringsRefuseByTests, CoveringRules, LinksBeginWithCoverings, LinkMapsBeginWithCoverings, ReadingKeepsToEnds, CoveringsKeepToEnds, CoveringMapKeepsToEnds};

/// The second pass answers a map exactly where it gives what the coverings of each included theory give, and at most one map
/// does; else it is refused by its tests, as not covered or as disagreeing. The map of the link begins with this one, and the later
/// passes go on from it.
pub fn law_coverings()
    ensures map { CoveringMapMeetsCoverings }
    ensures one { OneMapMeetsCoverings }
    ensures refused { CoveringsRefuseByTests }
    ensures rules { CoveringRules }
    ensures passes { LinksBeginWithCoverings }
    ensures begins { LinkMapsBeginWithCoverings }
{}

/// What assignments give, and the second pass, depend on the ends of the link alone.
pub fn law_ends()
    ensures reading { ReadingKeepsToEnds }
    ensures coverings { CoveringsKeepToEnds }
    ensures map { CoveringMapKeepsToEnds }
{}
