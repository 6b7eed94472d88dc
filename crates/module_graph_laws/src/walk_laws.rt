//! Walks, grounded names and the reach.

ghost use Rattle.module_graph_laws.specs.WalkLaws.{WalkingListsWalks, UngroundedIsDecided, UngroundedWalksOn, GroundedRestsOnGrounded, UngroundedRestsOnUngrounded, ReachIsReached, ReachIsAscending, ReachDecidesItself, ReachDecidesGrounds};
ghost use Rattle.module_graph_laws.specs.GraphLaws.{GraphReaches, GraphGrounds, GraphIsUngrounded, EditedGraphHolds, EmptyGraphHolds};

/// Walks are counted, and a walk with more names than the library goes on for ever.
pub fn law_walks()
    ensures counted { WalkingListsWalks }
    ensures ungrounded { UngroundedIsDecided }
    ensures for_ever { UngroundedWalksOn }
{}

/// A grounded name rests on grounded names alone, and an ungrounded one on an ungrounded one.
pub fn law_grounds()
    ensures grounded { GroundedRestsOnGrounded }
    ensures ungrounded { UngroundedRestsOnUngrounded }
{}

/// The reach holds what is reached, in byte order.
pub fn law_reach()
    ensures reached { ReachIsReached }
    ensures ascending { ReachIsAscending }
{}

/// Two libraries that agree on the reach of a name give it the same reach, and ground it alike.
pub fn law_agreement()
    ensures reach { ReachDecidesItself }
    ensures grounds { ReachDecidesGrounds }
{}

/// A graph that holds the dependencies of a library reaches and grounds as the library does, and can be kept up with edits.
pub fn law_graphs()
    ensures reach { GraphReaches }
    ensures grounds { GraphGrounds }
    ensures ungrounded { GraphIsUngrounded }
    ensures edited { EditedGraphHolds }
    ensures empty { EmptyGraphHolds }
{}
