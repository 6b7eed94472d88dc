//! Worked examples: each function does nothing, and its contract is proved by computing.

ghost use Rattle.eta_laws.specs.Examples.{AtomAtBase, VariableAtArrow, ApplicationAtArrow, VariableAtSecondOrder, VariableAtThirdOrder, TwoDomains, LongFormAtFamily, LongFormAtKind, FamilyWithArgument, ConstantAtAtom, ConstantAtType, TermStays, FamilyStays, ConstantAgreesWithItsLongForm, ConstantIsNoIdentity, FamilyAgreesWithItsLongForm, AtomicOutcome, LambdaOutcome, AtomicOutcomeAtAtom};

/// Long forms of atomic objects at simple types of each order, up to the third.
pub fn long_term_examples()
    ensures base { AtomAtBase }
    ensures arrow { VariableAtArrow }
    ensures application { ApplicationAtArrow }
    ensures second { VariableAtSecondOrder }
    ensures third { VariableAtThirdOrder }
    ensures domains { TwoDomains }
{}

/// Long forms of values.
pub fn long_value_examples()
    ensures family { LongFormAtFamily }
    ensures kind { LongFormAtKind }
    ensures argument { FamilyWithArgument }
    ensures atom { ConstantAtAtom }
    ensures bare { ConstantAtType }
    ensures term { TermStays }
    ensures binders { FamilyStays }
{}

/// Values that agree, and values that do not.
pub fn agreement_examples()
    ensures constant { ConstantAgreesWithItsLongForm }
    ensures identity { ConstantIsNoIdentity }
    ensures family { FamilyAgreesWithItsLongForm }
{}

/// What outcomes stand for.
pub fn outcome_examples()
    ensures atomic { AtomicOutcome }
    ensures lambda { LambdaOutcome }
    ensures atom { AtomicOutcomeAtAtom }
{}
