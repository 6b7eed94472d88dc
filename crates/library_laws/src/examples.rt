//! Worked examples: each function does nothing, and its contract is proved by computing.

ghost use Rattle.library_laws.specs.Examples.{DiamondIsShared, DiamondHasSix, SharedIsFound, TwoAreAmbiguous, QualifiedIsFound, OwnIsFound, OwnIsNotQualified, BinderHides};
ghost use Rattle.library_laws.specs.WordExamples.{StructuresCompose, WordsCompose, OwnStructuresAreHere, EndsAreApart, ModuleIsUnknown, ModuleIsRefused, TheoryIsNoWord, ViewHasNoStructures, StructureIsUnknown};

/// A diamond of inclusions.
pub fn diamond()
    ensures shared { DiamondIsShared }
    ensures six { DiamondHasSix }
    ensures found { SharedIsFound }
    ensures ambiguous { TwoAreAmbiguous }
    ensures qualified { QualifiedIsFound }
{}

/// Own constants and bound variables.
pub fn own_names()
    ensures own { OwnIsFound }
    ensures not_qualified { OwnIsNotQualified }
    ensures hidden { BinderHides }
{}

/// Words of structures and views, and rows of them.
pub fn words()
    ensures structures { StructuresCompose }
    ensures row { WordsCompose }
    ensures own { OwnStructuresAreHere }
{}

/// Words that are no links.
pub fn word_faults()
    ensures ends { EndsAreApart }
    ensures absent { ModuleIsUnknown }
    ensures refused { ModuleIsRefused }
    ensures theory { TheoryIsNoWord }
    ensures view { ViewHasNoStructures }
    ensures structure { StructureIsUnknown }
{}
