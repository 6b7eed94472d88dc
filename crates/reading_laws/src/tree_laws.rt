// The law of what tokens spell. It is the contract of a function that does nothing.

ghost use Rattle.reading_laws.specs.ReadingLaws.{TreesAreDetermined};

/// Tokens spell at most one tree.
pub fn law_one_tree()
    ensures { TreesAreDetermined }
{}
