//! Worked cases of terms that are left short: the contract of each function is proved by computing.

ghost use Rattle.verdict_examples.specs.ShortTerms.{ShortArguments, ThirdOrderDomain, DependentProduct, ShortFamilies, OneNameStaysTheSame, LambdaIsLeft, AtomAtAProduct, NameOfAnotherProduct, ApplicationOfAnotherKind, ApplicationThatMissesAnArgument};

/// Values with names and applications at products and at kinds with domains.
pub fn left_short()
    ensures short_arguments { ShortArguments }
    ensures third_order_domain { ThirdOrderDomain }
    ensures dependent_product { DependentProduct }
    ensures short_families { ShortFamilies }
    ensures one_name_stays_the_same { OneNameStaysTheSame }
    ensures lambda_is_left { LambdaIsLeft }
{}

/// Names and applications that stand for nothing there.
pub fn standing_for_nothing()
    ensures atom_at_a_product { AtomAtAProduct }
    ensures name_of_another_product { NameOfAnotherProduct }
    ensures application_of_another_kind { ApplicationOfAnotherKind }
    ensures application_that_misses_an_argument { ApplicationThatMissesAnArgument }
{}
