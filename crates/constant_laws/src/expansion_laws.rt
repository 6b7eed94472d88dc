//! What stands holds only constants of its scope.

ghost use Rattle.constant_laws.specs.ExpansionHolds.{StandingObjectHolds, StandingHeadHolds, TakenArgumentsHold, StandingFamilyHolds, StandingKindHolds, StandingClassHolds, StandingFamilyValueHolds, StandingValueHolds};

/// What an expression stands for holds only the variables around it and the constants of the scope.
pub fn law_expansion_holds()
    ensures object { StandingObjectHolds }
    ensures head { StandingHeadHolds }
    ensures arguments { TakenArgumentsHold }
    ensures family { StandingFamilyHolds }
    ensures kind { StandingKindHolds }
    ensures class { StandingClassHolds }
    ensures family_value { StandingFamilyValueHolds }
    ensures value { StandingValueHolds }
{}
