//! Simple types: what keeps them, and that well-sorted substitutions meet no misfit.

ghost use Rattle.lf_substitution_laws.specs.SortLaws.{SubstitutionKeepsSorts, SubstitutionKeepsSortedFamilies, SubstitutionKeepsSortedKinds, SubstitutionMeetsNoMisfit, SubstitutionMeetsNoMisfitInFamilies, RaisingKeepsSorts, RaisingKeepsSortedFamilies, RaisingKeepsSortedKinds, RaisingPastDoesNothing};

/// Substitution keeps the sorts of objects, and well-sorted families and kinds.
pub fn law_substitution_keeps_sorts()
    ensures object { SubstitutionKeepsSorts }
    ensures family { SubstitutionKeepsSortedFamilies }
    ensures kind { SubstitutionKeepsSortedKinds }
{}

/// No step of a substitution into a well-sorted term meets a misfit.
pub fn law_no_misfit()
    ensures object { SubstitutionMeetsNoMisfit }
    ensures family { SubstitutionMeetsNoMisfitInFamilies }
{}

/// Raising keeps sorts, and does nothing behind the variables of a term.
pub fn law_raising_keeps_sorts()
    ensures object { RaisingKeepsSorts }
    ensures family { RaisingKeepsSortedFamilies }
    ensures kind { RaisingKeepsSortedKinds }
    ensures past { RaisingPastDoesNothing }
{}
