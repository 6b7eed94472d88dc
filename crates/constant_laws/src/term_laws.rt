//! Growth, raising and substitution.

ghost use Rattle.constant_laws.specs.HoldingLaws.{HoldingGrows, RaisingHolds, SubstitutionHolds, FamilySubstitutionHolds, KindSubstitutionHolds};

/// Terms go on to hold no other constants and variables.
pub fn law_substitution_holds()
    ensures grows { HoldingGrows }
    ensures raising { RaisingHolds }
    ensures object { SubstitutionHolds }
    ensures family { FamilySubstitutionHolds }
    ensures kind { KindSubstitutionHolds }
{}
