//! Worked examples: each function does nothing, and its contract is proved by computing.

ghost use Rattle.printing_laws.specs.Examples.{MapIsPrinted, PrefixIsChanged, JudgementIsPrinted, IllIsPrinted, NoViewIsPrinted, MonoidIsPrinted, VerdictIsPrinted, ViewVerdictIsPrinted, RefusalIsPrinted, DefinitionsArePrinted, BodiesAreCounted, DomainsAreParenthesized, FamilyValueIsPrinted, LambdaIsParenthesized};

/// A view, with and without a constant that looks like a variable; a carried judgement.
pub fn view()
    ensures map { MapIsPrinted }
    ensures prefix { PrefixIsChanged }
    ensures judgement { JudgementIsPrinted }
    ensures ill { IllIsPrinted }
    ensures no_view { NoViewIsPrinted }
{}

/// Flat texts and verdicts of theories.
pub fn theories()
    ensures monoid { MonoidIsPrinted }
    ensures verdict { VerdictIsPrinted }
    ensures view_verdict { ViewVerdictIsPrinted }
    ensures refusal { RefusalIsPrinted }
    ensures definitions { DefinitionsArePrinted }
{}

/// Binders, arrows, parentheses.
pub fn terms()
    ensures bodies { BodiesAreCounted }
    ensures domains { DomainsAreParenthesized }
    ensures family_value { FamilyValueIsPrinted }
    ensures lambda { LambdaIsParenthesized }
{}
