//! Laws of the parentheses of printed texts. Each is the contract of a function that does nothing.

ghost use Rattle.parentheses_laws.specs.FewestParentheses.{PrintedModulesHaveFewest, PrintedExpressionsHaveFewest, PrintedJudgementsHaveFewest};

/// No text that spells the same module, expression or judgement up to spans has fewer parentheses than the printed one.
pub fn law_fewest_parentheses()
    ensures modules { PrintedModulesHaveFewest }
    ensures expressions { PrintedExpressionsHaveFewest }
    ensures judgements { PrintedJudgementsHaveFewest }
{}
