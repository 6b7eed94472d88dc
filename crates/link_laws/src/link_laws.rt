//! The map of a link.

ghost use Rattle.link_laws.specs.LinkLaws.{AssignmentsAreRead, PassesMeetEquations, OneMapMeetsEquations, LinkMapMeetsEquations, OneMapOfLink};

/// Assignments are read as what they give, and as nothing else.
pub fn law_assignments()
    ensures { AssignmentsAreRead }
{}

/// The passes answer a map exactly where it meets the equations of the link, and at most one map does.
pub fn law_links()
    ensures passes { PassesMeetEquations }
    ensures one { OneMapMeetsEquations }
    ensures link { LinkMapMeetsEquations }
    ensures one_link { OneMapOfLink }
{}
