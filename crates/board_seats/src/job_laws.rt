//! The jobs that a pass may end. There is no code: the function does nothing, and its contract is a law.

ghost use Rattle.board_seats.specs.JobLaws.{JobsStay, JobsStayJoined};

/// A job that a pass may end stays one, whatever calls are made, until the pass ends it.
pub fn law_jobs<L, M>()
    ensures calls { JobsStay L M }
    ensures joins { JobsStayJoined L M }
{}
