//! What the answers that a module is judged by tell.

ghost use Rattle.verdict_laws.specs.AnswersKnown.{AnswersAreKnown};

/// What is known from the answers of what a module reaches is what the module knows.
pub fn law_answers_known()
    ensures { AnswersAreKnown }
{}
