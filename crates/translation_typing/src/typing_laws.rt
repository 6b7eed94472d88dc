//! Translation along a typed map keeps typing, and commutes with raising and substitution.

ghost use Rattle.translation_typing.specs.Composition.{ObjectsAreComposed, FamiliesAreComposed, KindsAreComposed, ClassesAreComposed, ValuesAreComposed, CompositionIsTyped, CompositionIsProper};
ghost use Rattle.translation_typing.specs.TypedTranslation.{TypingIsCarried, ContextsAreCarried, FamiliesAreCarried, KindsAreCarried, ClassesAreCarried, ValuesAreCarried, RaisedObjectsAreTranslated, RaisedFamiliesAreTranslated, RaisedKindsAreTranslated, SubstitutedObjectsAreTranslated, SubstitutedFamiliesAreTranslated, SubstitutedKindsAreTranslated};

/// What is well typed is carried to what is.
pub fn law_translation_keeps_typing()
    ensures typing { TypingIsCarried }
    ensures context { ContextsAreCarried }
    ensures family { FamiliesAreCarried }
    ensures kind { KindsAreCarried }
    ensures class { ClassesAreCarried }
    ensures value { ValuesAreCarried }
{}

/// What is raised and then translated is what is translated and then raised.
pub fn law_translation_raises()
    ensures object { RaisedObjectsAreTranslated }
    ensures family { RaisedFamiliesAreTranslated }
    ensures kind { RaisedKindsAreTranslated }
{}

/// So it is with substitution, at the erasure of the translated family.
pub fn law_translation_substitutes()
    ensures object { SubstitutedObjectsAreTranslated }
    ensures family { SubstitutedFamiliesAreTranslated }
    ensures kind { SubstitutedKindsAreTranslated }
{}

/// Translation along a composition is translation along one map and then the other; the composition is typed.
pub fn law_translation_composes()
    ensures object { ObjectsAreComposed }
    ensures family { FamiliesAreComposed }
    ensures kind { KindsAreComposed }
    ensures class { ClassesAreComposed }
    ensures value { ValuesAreComposed }
    ensures typed { CompositionIsTyped }
    ensures proper { CompositionIsProper }
{}
