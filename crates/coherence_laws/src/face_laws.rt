//! Faces of accepted modules.

ghost use Rattle.coherence_laws.specs.CoherenceLaws.{FacesAreCoherent, GroundedKnowCoherent, ClosedAreCoherent, SizesAreLengths, GroundedKnowSizes, ClosedHaveSizes, MapsHaveLengths};

/// All that a library's verdicts tell of its accepted modules is coherent, and what they tell of names that are closed under
/// their reach.
pub fn law_faces()
    ensures faces { FacesAreCoherent }
    ensures known { GroundedKnowCoherent }
    ensures closed { ClosedAreCoherent }
{}

/// The size that an accepted theory shows is the length of its flat signature, over each of these; and the map of a view of coherent
/// faces is as long as the flat signature of its domain.
pub fn law_sizes()
    ensures faces { SizesAreLengths }
    ensures known { GroundedKnowSizes }
    ensures closed { ClosedHaveSizes }
    ensures views { MapsHaveLengths }
{}
