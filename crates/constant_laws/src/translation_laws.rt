//! Translation brings only constants of the target.

ghost use Rattle.constant_laws.specs.TranslationHolds.{CoherentMapsInto, TranslatedObjectHolds, TranslatedFamilyHolds, TranslatedKindHolds, TranslatedClassHolds, TranslatedValueHolds, TranslatedClassIsAlike, CompositionIsCoherent};

/// What is translated along a map into a signature holds only constants of that signature.
pub fn law_translation_holds()
    ensures coherent { CoherentMapsInto }
    ensures object { TranslatedObjectHolds }
    ensures family { TranslatedFamilyHolds }
    ensures kind { TranslatedKindHolds }
    ensures class { TranslatedClassHolds }
    ensures value { TranslatedValueHolds }
    ensures alike { TranslatedClassIsAlike }
{}

/// The composition of coherent maps is coherent.
pub fn law_composition_holds()
    ensures { CompositionIsCoherent }
{}
