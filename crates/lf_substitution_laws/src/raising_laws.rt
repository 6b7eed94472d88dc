//! Raising, and raising with substitution, for all terms.

ghost use Rattle.lf_substitution_laws.specs.RaisingLaws.{RaiseByZero, RaiseFamilyByZero, RaiseKindByZero, RaiseTwice, RaiseFamilyTwice, RaiseKindTwice, RaiseSwap, RaiseFamilySwap, RaiseKindSwap, RaiseAbove, RaiseFamilyAbove, RaiseKindAbove, RaiseBelow, RaiseFamilyBelow, RaiseKindBelow, SubstituteRaised, SubstituteRaisedFamily, SubstituteRaisedKind};

/// Raising by 0 does nothing.
pub fn law_raise_by_zero()
    ensures object { RaiseByZero }
    ensures family { RaiseFamilyByZero }
    ensures kind { RaiseKindByZero }
{}

/// A raising that begins within the reach of another adds up with it.
pub fn law_raise_twice()
    ensures object { RaiseTwice }
    ensures family { RaiseFamilyTwice }
    ensures kind { RaiseKindTwice }
{}

/// Two raisings in either order.
pub fn law_raise_swap()
    ensures object { RaiseSwap }
    ensures family { RaiseFamilySwap }
    ensures kind { RaiseKindSwap }
{}

/// Raising of the variables outside of a substituted one.
pub fn law_raise_above()
    ensures object { RaiseAbove }
    ensures family { RaiseFamilyAbove }
    ensures kind { RaiseKindAbove }
{}

/// Raising of the variables inside of a substituted one.
pub fn law_raise_below()
    ensures object { RaiseBelow }
    ensures family { RaiseFamilyBelow }
    ensures kind { RaiseKindBelow }
{}

/// Substitution into a term that was raised over the variable.
pub fn law_substitute_raised()
    ensures object { SubstituteRaised }
    ensures family { SubstituteRaisedFamily }
    ensures kind { SubstituteRaisedKind }
{}
