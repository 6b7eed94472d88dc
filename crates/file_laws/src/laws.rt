// Laws about the division of files into modules. Each is the contract of a function that does nothing.

ghost use Rattle.file_laws.specs.DivisionExamples.{DivisionExamples};
ghost use Rattle.file_laws.specs.DivisionLaws.{EachFileHasOneDivision};

/// Each file divides into modules in one way, or has one fault, and `divide` gives it.
pub fn law_one_division()
    ensures { EachFileHasOneDivision }
{}

/// Small files divide as the rules of files say.
pub fn law_division_examples()
    ensures { DivisionExamples }
{}
