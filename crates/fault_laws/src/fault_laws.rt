//! Faults of expressions, links and modules.

ghost use Rattle.fault_laws.specs.FaultLaws.{ObjectFaults, FamilyFaults, KindFaults, ClassFaults, ValueFaults, LinkRefusals, DeclarationRefusals, RefusalsStandInTexts, VerdictsStandInTexts, CyclesAreUngrounded, VerdictsDecideGrounds};

/// The fault of an expression stands within the bytes within which the expression stands, and breaks one of the rules of
/// expressions.
pub fn law_expression_faults()
    ensures object { ObjectFaults }
    ensures family { FamilyFaults }
    ensures kind { KindFaults }
    ensures class { ClassFaults }
    ensures value { ValueFaults }
{}

/// The refusal of a link, and that of a declaration, stand within the text in which these stand, and break one of their rules: a
/// structure has no missing assignment.
pub fn law_refusals()
    ensures link { LinkRefusals }
    ensures declaration { DeclarationRefusals }
{}

/// A refused module has its place within its text.
pub fn law_refusal_places()
    ensures judged { RefusalsStandInTexts }
    ensures library { VerdictsStandInTexts }
{}

/// A module is refused as a cycle exactly where it is ungrounded. So the text of a name and the verdicts of what it reaches
/// decide that it is grounded.
pub fn law_cycle_refusals()
    ensures cycles { CyclesAreUngrounded }
    ensures grounds { VerdictsDecideGrounds }
{}
