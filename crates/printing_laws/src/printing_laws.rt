//! Laws of what is printed.

ghost use Rattle.printing_laws.specs.PrintingLaws.{PrefixIsFree, PrefixIsLeast, NumbersAreDecimal};

/// The prefix of printed variables is free of the theory's own constants, and the shortest such one.
pub fn law_prefix()
    ensures free { PrefixIsFree }
    ensures least { PrefixIsLeast }
{}

/// Numbers of at most 64 digits are printed in decimal digits, without a leading zero.
pub fn law_numbers()
    ensures { NumbersAreDecimal }
{}
