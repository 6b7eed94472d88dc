//! Steps of certificates are sound.

ghost use Rattle.certificate_laws.specs.StepLaws.{StepsAreSound, TypedHeadIsSubstituted};

/// What follows by one row from true premises is true.
pub fn law_steps()
    ensures sound { StepsAreSound }
{}

/// What comes of an atomic object under a substitution, with its simple type, is what hereditary substitution makes of it.
pub fn law_heads()
    ensures substituted { TypedHeadIsSubstituted }
{}
