//! Which modules are still to be judged, and whether one may be ready.
ghost use Rattle.std.specs.Prelude.{◌≡◌, false, None};
ghost use Rattle.board_meaning.specs.Ready.{least_ready};
ghost use Rattle.verdict_board.specs.FirstPending.{IsFirstPending};

use crate::Board;
use crate::candidates::may_be_ready;
use module_graph::Subject;

impl<S: Subject> Board<S> {
    /// The place, counted from 0 in byte order of the names of the library, of the first module at a place or behind it whose
    /// verdict is to come. None exactly where each of them is ungrounded or has a standing verdict. It takes no memory.
    pub fn first_pending(&self, from: usize) -> Option<usize>
        ensures { IsFirstPending S.subject.dependencies self.now from result }
    {
        for place in from..self.stages.len() {
            if self.stages.row_at(place).1.answer().is_none() {
                return Some(place);
            }
        }
        None
    }

    /// Whether a module may be ready, so that a claim may give a job. Where it may not, none is ready. It takes no memory.
    pub fn may_have_job(&self) -> bool
        ensures { result ≡ false → least_ready S.subject.dependencies self.now ≡ None }
    {
        if self.closed {
            return false;
        }
        may_be_ready(&self.stages, &self.candidates)
    }
}
