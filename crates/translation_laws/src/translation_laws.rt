//! Translation of spines, and composed maps.

ghost use Rattle.translation_laws.specs.ValueLaws.{ObjectsComeOut, FamiliesComeOut};
ghost use Rattle.translation_laws.specs.TranslationLaws.{SpineIsTaken, FamilySpineIsTaken, CompositionTranslatesImages, DifferenceIsFirst, AgreeIsOneValue, DefinedConstantsKeepValues, ConstantsHaveImages, FirstIsFound};

/// A head with its arguments is translated by its image taking the translated arguments.
pub fn law_spines()
    ensures object { SpineIsTaken }
    ensures family { FamilySpineIsTaken }
{}

/// A composition has the images of the first map, translated along the second.
pub fn law_composition()
    ensures { CompositionTranslatesImages }
{}

/// Two maps differ first where the function says, and agree where both give one value.
pub fn law_differ()
    ensures first { DifferenceIsFirst }
    ensures agree { AgreeIsOneValue }
{}

/// A typed map gives each constant an image of its translated class, and a defined one its translated value.
pub fn law_typed_maps()
    ensures values { DefinedConstantsKeepValues }
    ensures images { ConstantsHaveImages }
{}

/// The constant that is found is the first one without an image; none is found where each has one.
pub fn law_unmapped()
    ensures { FirstIsFound }
{}

/// A value that comes out as a bare constant is the same as the constant, and no other is.
pub fn law_values()
    ensures objects { ObjectsComeOut }
    ensures families { FamiliesComeOut }
{}
