//! Verdicts on the modules of a library.

ghost use Rattle.verdict_laws.specs.VerdictLaws.{PresentNamesHaveVerdicts, VerdictIsJudged, VerdictKeepsToReach, VerdictRestsOnVerdicts, UngroundedIsCycle};

/// Each present name has exactly one verdict: that on its text, over the verdicts of what it reaches.
pub fn law_verdicts()
    ensures present { PresentNamesHaveVerdicts }
    ensures judged { VerdictIsJudged }
{}

/// The verdict on a grounded name depends on its reach alone.
pub fn law_reach_decides()
    ensures texts { VerdictKeepsToReach }
    ensures verdicts { VerdictRestsOnVerdicts }
{}

/// An ungrounded module has an ungrounded dependency, and is refused at the first one.
pub fn law_cycles()
    ensures { UngroundedIsCycle }
{}
