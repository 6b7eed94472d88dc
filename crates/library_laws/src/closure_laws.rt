//! The inclusion closure.

ghost use Rattle.library_laws.specs.ClosureLaws.{InclusionKeepsClosure, ClosureIsClosure, InclusionAdds, ClosureHasExactly, ClosureInOrder};

/// The closure of a theory lists each theory once, and behind what it includes. It has exactly what the inclusions bring, in
/// the order of the text.
pub fn law_closure()
    ensures step { InclusionKeepsClosure }
    ensures closure { ClosureIsClosure }
    ensures adds { InclusionAdds }
    ensures exactly { ClosureHasExactly }
    ensures order { ClosureInOrder }
{}
