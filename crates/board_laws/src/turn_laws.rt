//! The turns of a worker.

ghost use Rattle.board_laws.specs.TurnLaws.{TurnsAreSeen, TurnsWithoutMemoryAreSeen, TurnsMayEnd, EndsTellClosed, WorkEndsClosed};

/// A turn makes at most one claim, and ends it.
pub fn law_turns<A>()
    ensures seen { TurnsAreSeen A }
    ensures no_memory { TurnsWithoutMemoryAreSeen A }
    ensures may_end { TurnsMayEnd A }
{}

/// A pass that has done its work has seen the board closed, and has made two entries for each module that it judged.
pub fn law_work<A>()
    ensures ends { EndsTellClosed A }
    ensures work { WorkEndsClosed A }
{}
