//! Substitutions commute with each other and with the replacement of constants.

ghost use Rattle.lf_substitution_laws.specs.CommutationLaws.{SubstitutionsCommute, InnermostSubstitutionsCommute, SubstitutionsCommuteInFamilies, SubstitutionsCommuteInKinds, ConstantsCommuteWithRaising, ConstantsCommuteWithSubstitution};
ghost use Rattle.lf_substitution_laws.specs.SortLaws.{ConstantsKeepSorts};

/// Two substitutions commute, at any depth, in objects, families and kinds.
pub fn law_substitutions_commute()
    ensures object { SubstitutionsCommute }
    ensures innermost { InnermostSubstitutionsCommute }
    ensures family { SubstitutionsCommuteInFamilies }
    ensures kind { SubstitutionsCommuteInKinds }
{}

/// The replacement of constants keeps sorts and commutes with raising and substitution.
pub fn law_constants_commute()
    ensures sort { ConstantsKeepSorts }
    ensures raise { ConstantsCommuteWithRaising }
    ensures substitute { ConstantsCommuteWithSubstitution }
{}
