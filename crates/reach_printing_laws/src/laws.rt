//! Lines and flat texts over the faces of a reach.

ghost use Rattle.reach_printing_laws.specs.PrintedFaces.{FacesCarryTheSame, FacesPrintTheories, FacesPrintViews};

/// The line and the flat text of an accepted module are the same over all that the verdicts of a library tell, and over what
/// they tell of names that have every present name of its reach.
pub fn law_printed()
    ensures theories { FacesPrintTheories }
    ensures views { FacesPrintViews }
{}

/// So is what carrying a text along a view comes to.
pub fn law_carried()
    ensures { FacesCarryTheSame }
{}
