//! Worked cases: each function does nothing, and its contract is proved by computing.

ghost use Rattle.verdict_examples.specs.BoardExamples.{NatCallsMayBeMade, NatEditsAreMade, NatIsClaimed, MisspelledNatIsStale, NatPutBackIsStale, NatIsPending, NatIsClaimedAgain, NatIsInstalled, NothingButNat, NatIsTold, HistoryOfNat};
ghost use Rattle.verdict_examples.specs.RuleExamples.{ViewIsNoTheory, NameUsedTwice, ObjectIsNoFamily, AtomIsNoFunction, OtherDomain, TargetIsUnknown, TargetIsAssignedTwice, EndsDoNotMeet, ProductIsNoValue, FamilyOfAnotherKind, FamilyUnderLambda, FamilyApplied, SharedStructureDisagrees, SharedStructureAgrees};
ghost use Rattle.verdict_examples.specs.Examples.{NaturalNumbers, MisspelledName, EtaShortArgument, EtaLongArgument, MonoidOverLogic, MonoidIsChecked, MixedCopies, TwoCopies, AssignedStructure, Ring, BareStructure, AssignedConstantsAreDefined, RingHasOneSet, SharedInclusion, AmbiguousName, QualifiedName, ViewOfDefinition, ClashWithDefinition, MissingAssignment, IllTypedAssignment, FirstCovering, DisagreeingInclusions, NineAreAccepted, EmptyText, PercentWord, OpenComment, WrongName, CycleOfA, CycleOfB, CycleOfC, AWithoutB, BWithoutB, CWithoutB};

/// Small theories.
pub fn theories()
    ensures natural_numbers { NaturalNumbers }
    ensures misspelled_name { MisspelledName }
    ensures eta_short_argument { EtaShortArgument }
    ensures eta_long_argument { EtaLongArgument }
{}

/// Structures: what they share and what they copy.
pub fn structures()
    ensures monoid_over_logic { MonoidOverLogic }
    ensures monoid_is_checked { MonoidIsChecked }
    ensures mixed_copies { MixedCopies }
    ensures two_copies { TwoCopies }
    ensures assigned_structure { AssignedStructure }
    ensures ring { Ring }
    ensures bare_structure { BareStructure }
    ensures assigned_constants { AssignedConstantsAreDefined }
    ensures one_set { RingHasOneSet }
{}

/// A diamond of inclusions.
pub fn inclusions()
    ensures shared_inclusion { SharedInclusion }
    ensures ambiguous_name { AmbiguousName }
    ensures qualified_name { QualifiedName }
{}

/// Views, and what keeps them from being accepted.
pub fn views()
    ensures view_of_definition { ViewOfDefinition }
    ensures clash_with_definition { ClashWithDefinition }
    ensures missing_assignment { MissingAssignment }
    ensures ill_typed_assignment { IllTypedAssignment }
{}

/// Views that include others.
pub fn coverings()
    ensures first_covering { FirstCovering }
    ensures disagreeing_inclusions { DisagreeingInclusions }
    ensures nine_are_accepted { NineAreAccepted }
{}

/// Texts that do not read, and a wrong name.
pub fn unread()
    ensures empty_text { EmptyText }
    ensures percent_word { PercentWord }
    ensures open_comment { OpenComment }
    ensures wrong_name { WrongName }
{}

/// A cycle, and what is left of it when one of its names is dropped.
pub fn cycle()
    ensures cycle_of_a { CycleOfA }
    ensures cycle_of_b { CycleOfB }
    ensures cycle_of_c { CycleOfC }
    ensures a_without_b { AWithoutB }
    ensures b_without_b { BWithoutB }
    ensures c_without_b { CWithoutB }
{}

/// Single rules that the other cases do not meet.
pub fn rules()
    ensures view_is_no_theory { ViewIsNoTheory }
    ensures name_used_twice { NameUsedTwice }
    ensures object_is_no_family { ObjectIsNoFamily }
    ensures atom_is_no_function { AtomIsNoFunction }
    ensures other_domain { OtherDomain }
    ensures target_is_unknown { TargetIsUnknown }
    ensures target_is_assigned_twice { TargetIsAssignedTwice }
    ensures ends_do_not_meet { EndsDoNotMeet }
    ensures product_is_no_value { ProductIsNoValue }
    ensures family_of_another_kind { FamilyOfAnotherKind }
    ensures family_under_lambda { FamilyUnderLambda }
    ensures family_applied { FamilyApplied }
    ensures shared_structure_disagrees { SharedStructureDisagrees }
    ensures shared_structure_agrees { SharedStructureAgrees }
{}

/// A board over modules: a text is put again, and put back, between a claim and its install.
pub fn stale_install()
    ensures may { NatCallsMayBeMade }
    ensures edits { NatEditsAreMade }
    ensures job { NatIsClaimed }
    ensures stale { MisspelledNatIsStale }
    ensures way_back { NatPutBackIsStale }
    ensures pending { NatIsPending }
    ensures again { NatIsClaimedAgain }
    ensures installed { NatIsInstalled }
    ensures nothing { NothingButNat }
    ensures told { NatIsTold }
    ensures history { HistoryOfNat }
{}
