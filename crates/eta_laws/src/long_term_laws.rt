//! Long forms of well-sorted terms, under raising, substitution and application.

ghost use Rattle.eta_laws.specs.LongTermLaws.{EtaHasSort, RenamedEta, RaiseEta, RaiseEtaFamily, SubstituteKeptEta, SubstituteReplacedEta, SubstituteEtaOfVariable, SubstituteEtaFamily, VariableIsIdentity, VariableIsIdentityInFamilies, VariableIsIdentityInKinds, EtaTakesOne, EtaTakesAll, EtaFamilyIsApplied, EtaFamilyKeepsErasures};

/// A long form has the sort at which it is taken, and depends on the arrows of that sort alone.
pub fn law_eta_sort()
    ensures sort { EtaHasSort }
    ensures arrows { RenamedEta }
{}

/// Raising passes through a long form to the atomic term.
pub fn law_raised_eta()
    ensures object { RaiseEta }
    ensures family { RaiseEtaFamily }
{}

/// Substitution passes through the long form of an atomic object that it keeps; a value that it puts in place of the atomic object
/// is what comes of its long form.
pub fn law_substituted_eta()
    ensures kept { SubstituteKeptEta }
    ensures replaced { SubstituteReplacedEta }
    ensures variable { SubstituteEtaOfVariable }
    ensures family { SubstituteEtaFamily }
{}

/// Substituting the long form of a new variable for the one beside it undoes the raising over the new one.
pub fn law_eta_of_variable()
    ensures object { VariableIsIdentity }
    ensures family { VariableIsIdentityInFamilies }
    ensures kind { VariableIsIdentityInKinds }
{}

/// A long form takes well-sorted arguments as the atomic object does: with all of them it is this object with these arguments.
pub fn law_applied_eta()
    ensures one { EtaTakesOne }
    ensures all { EtaTakesAll }
{}

/// The long form of a family is the family applied to the long forms of the variables of the kind's domains, of which the erasures
/// alone count.
pub fn law_eta_family()
    ensures applied { EtaFamilyIsApplied }
    ensures erasures { EtaFamilyKeepsErasures }
{}
