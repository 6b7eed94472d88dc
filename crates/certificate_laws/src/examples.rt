//! Worked examples: each function does nothing, and its contract is proved by computing or by one row.

ghost use Rattle.certificate_laws.specs.Examples.{ObjectIsRaised, KindIsNotRaised, AtomicIsNotRaised, FormsAreRaisedApart, ContextIsNotRaised, ObjectIsSubstituted, AtomicIsNotSubstituted, HeadGoesAtCodomain, HeadGoesAtNoOther, HeadGoesWithType, HeadStaysWithoutType, LambdaDoesNotStay, KindRow, TypeRow, AtomicValueRow, ApplicationRow, TwoDeclarations, OtherPremise, StepWithoutPremises, TermTwice, StepTwice, NoLines, ConstantIsNoObject, ConstantIsNoFamily};

/// Statements that are true and that are not.
pub fn truth_examples()
    ensures object_raised { ObjectIsRaised }
    ensures kind_raised { KindIsNotRaised }
    ensures atomic_raised { AtomicIsNotRaised }
    ensures forms { FormsAreRaisedApart }
    ensures context { ContextIsNotRaised }
    ensures object_substituted { ObjectIsSubstituted }
    ensures atomic_substituted { AtomicIsNotSubstituted }
{}

/// Substitution at the head of an atomic object.
pub fn head_examples()
    ensures codomain { HeadGoesAtCodomain }
    ensures other { HeadGoesAtNoOther }
    ensures goes { HeadGoesWithType }
    ensures stays { HeadStaysWithoutType }
    ensures lambda { LambdaDoesNotStay }
{}

/// Rows that no certificate of a well-typed signature needs, and the premises of an application.
pub fn row_examples()
    ensures kind { KindRow }
    ensures kind_type { TypeRow }
    ensures atomic { AtomicValueRow }
    ensures application { ApplicationRow }
{}

/// Lines that are certificates and that are not.
pub fn certificate_examples()
    ensures two { TwoDeclarations }
    ensures premise { OtherPremise }
    ensures step { StepWithoutPremises }
    ensures term_twice { TermTwice }
    ensures step_twice { StepTwice }
    ensures none { NoLines }
    ensures object { ConstantIsNoObject }
    ensures family { ConstantIsNoFamily }
{}
