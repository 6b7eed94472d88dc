//! Laws of printed modules and expressions. Each is the contract of a function that does nothing.

ghost use Rattle.print_laws.specs.PrintLaws.{PrintedModulesAreRead, PrintedExpressionsSpell, PrintedExpressionsAreReadWithin, PrintedJudgementsAreRead, JudgedExpressionsAreSpelled};

/// What is printed of a module that some text spells is read again as that module; what is printed of an expression spells
/// it, and is read again as that expression within a judgement.
pub fn law_printed()
    ensures modules { PrintedModulesAreRead }
    ensures expressions { PrintedExpressionsSpell }
    ensures within { PrintedExpressionsAreReadWithin }
    ensures judgements { PrintedJudgementsAreRead }
    ensures judged { JudgedExpressionsAreSpelled }
{}
