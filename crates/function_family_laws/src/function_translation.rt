//! Translation of simple types, objects, families, kinds, classes and values along maps whose families may be functions.

ghost use Rattle.function_family_laws.specs.AtomicImages.{ObjectsAreTheSame, FamiliesAreTheSame, KindsAreTheSame, ClassesAreTheSame, ValuesAreTheSame};
ghost use Rattle.function_family_laws.specs.CommutingTranslation.{RaisedObjectsAreTranslated, RaisedFamiliesAreTranslated, RaisedKindsAreTranslated, SubstitutedObjectsAreTranslated, SubstitutedFamiliesAreTranslated, SubstitutedKindsAreTranslated};
ghost use Rattle.function_family_laws.specs.ErasedTranslation.{ErasedFamiliesAreTranslated, ErasedDomainsAreTranslated, ErasedContextsAreTranslated};
ghost use Rattle.function_family_laws.specs.TypedTranslation.{TypingIsCarried, ContextsAreCarried, FamiliesAreCarried, KindsAreCarried, ClassesAreCarried, ValuesAreCarried};

/// Erasure commutes with the translation of simple types, along any map.
pub fn law_erased_translation()
    ensures family { ErasedFamiliesAreTranslated }
    ensures domains { ErasedDomainsAreTranslated }
    ensures context { ErasedContextsAreTranslated }
{}

/// What is translated and then raised is what is raised and then translated with the new variables.
pub fn law_translation_raises()
    ensures object { RaisedObjectsAreTranslated }
    ensures family { RaisedFamiliesAreTranslated }
    ensures kind { RaisedKindsAreTranslated }
{}

/// What is substituted and then translated is what is translated and then substituted, at the translated simple type.
pub fn law_translation_substitutes()
    ensures object { SubstitutedObjectsAreTranslated }
    ensures family { SubstitutedFamiliesAreTranslated }
    ensures kind { SubstitutedKindsAreTranslated }
{}

/// Along a typed map what is well typed is carried to what is.
pub fn law_translation_keeps_typing()
    ensures typing { TypingIsCarried }
    ensures context { ContextsAreCarried }
    ensures family { FamiliesAreCarried }
    ensures kind { KindsAreCarried }
    ensures class { ClassesAreCarried }
    ensures value { ValuesAreCarried }
{}

/// Where each family is atomic below its binders, well-typed terms are translated as `Translation` says.
pub fn law_atomic_images()
    ensures object { ObjectsAreTheSame }
    ensures family { FamiliesAreTheSame }
    ensures kind { KindsAreTheSame }
    ensures class { ClassesAreTheSame }
    ensures value { ValuesAreTheSame }
{}
