//! Typing of what expressions stand for.

ghost use Rattle.elaborate_typing.specs.AppliedFamilies.{FamilyIsApplied};
ghost use Rattle.elaborate_typing.specs.TypingOfExpansion.{StandingObjectChecks, StandingHeadIsTyped, TakenArgumentsAreTyped, StandingFamilyIsFamily, StandingKindIsKind, StandingClassIsClass, StandingFamilyValueIsFamily, StandingValueFits};

/// Where the scope's signature is well typed, so is all that an expression stands for.
pub fn law_expansion_typing()
    ensures object { StandingObjectChecks }
    ensures head { StandingHeadIsTyped }
    ensures arguments { TakenArgumentsAreTyped }
    ensures family { StandingFamilyIsFamily }
    ensures kind { StandingKindIsKind }
    ensures class { StandingClassIsClass }
    ensures family_value { StandingFamilyValueIsFamily }
    ensures value { StandingValueFits }
{}

/// A typed family stands, at the kind that it has left, for itself applied to the long forms of the variables of the kind's domains.
pub fn law_applied_families()
    ensures { FamilyIsApplied }
{}
