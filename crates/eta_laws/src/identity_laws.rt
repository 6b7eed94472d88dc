//! Long forms are typed.

ghost use Rattle.eta_laws.specs.IdentityLaws.{EtaChecks, EtaOfVariableChecks, EtaFamilyIsFamily, AtomicOutcomeChecks, CheckedOutcomeStays};

/// Over a well-typed signature and in a well-formed context a variable, a typed atomic object and a typed atomic family have
/// long forms that are typed as they are.
pub fn law_identity()
    ensures variable { EtaOfVariableChecks }
    ensures atomic { EtaChecks }
    ensures family { EtaFamilyIsFamily }
{}

/// What a typed outcome stands for at its family checks against it.
pub fn law_outcome()
    ensures atomic { AtomicOutcomeChecks }
    ensures checked { CheckedOutcomeStays }
{}
