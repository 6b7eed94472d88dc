//! Accepted theories.

ghost use Rattle.acceptance_laws.specs.TheoryLaws.{TestsAnswerDeclared, OneFaceDeclared, AcceptedTheories, WrittenTheories, AcceptedTheoriesTold, WrittenTheoriesTold};

/// The tests of declarations answer a face exactly where the declarations lead to it, one after another, and that is at most
/// one.
pub fn law_declarations()
    ensures tests { TestsAnswerDeclared }
    ensures one { OneFaceDeclared }
{}

/// A theory is accepted exactly where it is grounded and written with its name, and its declarations lead from the empty
/// theory to its face. It is all one whether this is over what the module knows of others, or over all that the library's
/// verdicts tell.
pub fn law_theories()
    ensures faces { AcceptedTheories }
    ensures written { WrittenTheories }
    ensures told { AcceptedTheoriesTold }
    ensures written_told { WrittenTheoriesTold }
{}
