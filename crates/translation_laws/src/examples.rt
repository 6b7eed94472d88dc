//! Worked examples: each function does nothing, and its contract is proved by computing.

ghost use Rattle.translation_laws.specs.Examples.{AppliedTwice, SameBecomesSame, TermBecomesTerm, TermBecomesSame, BindersAreTakenFromTheOutside, FirstUnmappedIsNamed, AllMapped, FamilyLeavesObject, KindLeavesObject, TermLeavesFamily};

/// Objects, families and values along small maps.
pub fn translation_examples()
    ensures twice { AppliedTwice }
    ensures same { SameBecomesSame }
    ensures term { TermBecomesTerm }
    ensures bare { TermBecomesSame }
    ensures binders { BindersAreTakenFromTheOutside }
{}

/// Constants without an image.
pub fn unmapped_examples()
    ensures named { FirstUnmappedIsNamed }
    ensures none { AllMapped }
{}

/// Images of another level than their constants'.
#[tactic(auto, using(crate::proofs::Computed::family_leaves_object, crate::proofs::Computed::kind_leaves_object, crate::proofs::Computed::term_leaves_family))]
pub fn level_examples()
    ensures family { FamilyLeavesObject }
    ensures kind { KindLeavesObject }
    ensures term { TermLeavesFamily }
{}
