//! What expressions stand for.

ghost use Rattle.elaborate_laws.specs.ExpansionLaws.{ObjectsStand, HeadsStand, ArgumentsStand, FamiliesStand, KindsStand, ClassesStand, FamilyValuesStand, ValuesStand, OneObject, OneHead, OneHeadTaken, OneFamily, OneKind, OneClass, OneFamilyValue, OneValue};

/// An expression is expanded to what it stands for, and is refused where it stands for nothing.
pub fn law_expansion()
    ensures objects { ObjectsStand }
    ensures heads { HeadsStand }
    ensures arguments { ArgumentsStand }
    ensures families { FamiliesStand }
    ensures kinds { KindsStand }
    ensures classes { ClassesStand }
    ensures family_values { FamilyValuesStand }
    ensures values { ValuesStand }
{}

/// An expression stands for at most one term of each form, and a head becomes at most one by its arguments.
pub fn law_one_term()
    ensures object { OneObject }
    ensures head { OneHead }
    ensures arguments { OneHeadTaken }
    ensures family { OneFamily }
    ensures kind { OneKind }
    ensures class { OneClass }
    ensures family_value { OneFamilyValue }
    ensures value { OneValue }
{}
