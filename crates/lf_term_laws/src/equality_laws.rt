//! Tests of equality.

ghost use Rattle.lf_term_laws.specs.EqualityLaws.{SameConstantDecides, SameObjectDecides, SameAtomicDecides, SameFamilyDecides, SameKindDecides, SameClassDecides, SameValueDecides};

/// Each test of equality decides it.
pub fn law_equality()
    ensures constant { SameConstantDecides }
    ensures object { SameObjectDecides }
    ensures atomic { SameAtomicDecides }
    ensures family { SameFamilyDecides }
    ensures kind { SameKindDecides }
    ensures class { SameClassDecides }
    ensures value { SameValueDecides }
{}
