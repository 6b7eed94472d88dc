//! The points of calls through passes.

ghost use Rattle.board_laws.specs.PointLaws.{SeenIsPoint, OthersEndNoClaim, PointHasOwnEntries, PointKeepsJob, JobsMayBeEnded, CallsAreSeen, WantsAreSeen, WantsAreOfThese, CallsAreTold, QuestionsAreTold, BelowIsLess, FrontKnowsLog, JoinsAreSeen};

/// What a pass has seen of its claims holds at the point of its call.
pub fn law_points()
    ensures seen { SeenIsPoint }
    ensures claims { OthersEndNoClaim }
    ensures own { PointHasOwnEntries }
{}

/// The passes of entries are below a number; pass 0 knows the log; and after a join a pass has seen a point of both.
pub fn law_passes<L>()
    ensures below { BelowIsLess }
    ensures front { FrontKnowsLog }
    ensures joins { JoinsAreSeen L }
{}

/// What calls are told through a pass.
pub fn law_replies<A>()
    ensures calls { CallsAreTold A }
    ensures questions { QuestionsAreTold A }
{}

/// The job of a claim that a pass has seen is the same at the point, and the pass that was handed a job may end its claim.
pub fn law_jobs<A>()
    ensures kept { PointKeepsJob A }
    ensures may_end { JobsMayBeEnded A }
{}

/// After a call that happens at a point, or finds no memory there, the pass has seen a legal history, with its own entries in
/// their order.
pub fn law_calls<A>()
    ensures happens { CallsAreSeen A }
    ensures no_memory { WantsAreSeen A }
    ensures wants { WantsAreOfThese A }
{}
