//! The inclusion closure over a library.

ghost use Rattle.coherence_laws.specs.InclusionLaws.{ClosureIsOfText, AcceptedHasClosure, ClosureIsReached, ReachedAreAccepted, AcceptedNotReachedByItself};

/// The closure of an accepted theory is that of the inclusions of its text. It lists each theory once, and behind what it
/// includes, and has exactly the theories that the accepted one reaches by inclusions alone, which are all accepted. The accepted
/// one is not among them.
pub fn law_inclusions()
    ensures text { ClosureIsOfText }
    ensures closure { AcceptedHasClosure }
    ensures reached { ClosureIsReached }
    ensures accepted { ReachedAreAccepted }
    ensures itself { AcceptedNotReachedByItself }
{}
