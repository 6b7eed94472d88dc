//! The calls of the board, each in one turn.
ghost use Rattle.std.specs.Prelude.{◌≡◌, Some, take, IfOk, IfSome};
ghost use Rattle.edit_log_meaning.specs.Log.{Library};
ghost use Rattle.turn_meaning.specs.Passes.{IsIdleOf};
ghost use Rattle.board_meaning.specs.Events.{library_after};
ghost use Rattle.board_meaning.specs.Machine.{EditCall, ClaimCall, InstallCall, ReleaseCall, CloseCall};
ghost use Rattle.board_meaning.specs.Points.{Makes, Reports, AsksAnswers, AsksClosed, ClosedReply, NoReply};
ghost use Rattle.edit_log.specs.Readings.{read_edit};
ghost use Rattle.module_graph.specs.Subjects.{IsGiven, read_answers};
ghost use Rattle.verdict_board.specs.FirstPending.{IsFirstPending};
ghost use Rattle.verdict_board.specs.ReadBefore.{AreReadBefore};
ghost use Rattle.verdict_board.specs.Readings.{read_job};
ghost use Rattle.board_seats.specs.Replies.{read_edit_reply, read_claim, read_report, read_question, read_install};
ghost use Rattle.board_seats.specs.Seats.{IsCalled, LooksAt, MayEnd, IsGivenAtClaim};

use crate::waits::puts_long;
use crate::{BoardPass, SharedBoard};
use edit_log::{Edit, EditFault, Edited};
use lf_terms::{Memory, Name, Names};
use module_graph::{Answers, Subject};
use std::alloc::Global;
use std::sync::Wait;
use turn_lock::Turns;
use verdict_board::{Installed, Job, Told};

impl<S: Subject> SharedBoard<S> {
    /// Makes an edit, through pass 0; see `Board::edit`. Each refusal is the log's. Want of memory may come in place of `Made`
    /// alone.
    pub fn edit<R: Wait>(
        &self,
        rt: &R,
        alloc: Global,
        pass: &mut BoardPass<S>,
        edit: Edit,
    ) -> Result<Edited, EditFault>
        requires idle { IsIdleOf self.now pass.old }
        requires front { pass.old.number ≡ 0 }
        ensures { IsCalled S.subject pass.old (Makes (EditCall (read_edit edit))) (read_edit_reply result) pass.new }
    {
        self.edit_read_before(rt, alloc, pass, edit, None)
    }

    /// The same, where the dependencies of the text that is put may have been read before: then no other pass waits while they are
    /// read; see `Board::edit_read_before`.
    pub fn edit_read_before<R: Wait>(
        &self,
        rt: &R,
        alloc: Global,
        pass: &mut BoardPass<S>,
        edit: Edit,
        known: Option<Names>,
    ) -> Result<Edited, EditFault>
        requires idle { IsIdleOf self.now pass.old }
        requires front { pass.old.number ≡ 0 }
        requires known { AreReadBefore S.subject.dependencies (read_edit edit) known }
        ensures { IsCalled S.subject pass.old (Makes (EditCall (read_edit edit))) (read_edit_reply result) pass.new }
    {
        let is_long = puts_long(&edit);
        let mut board = self.take(rt, pass);
        let answer = board.edit_read_before(alloc, Turns::number(pass), edit, known);
        self.give(pass, board);
        self.wake_after_edit(is_long, &answer);
        answer
    }

    /// Claims the least ready name in byte order, for the pass to judge; see `Board::claim`. None exactly where no name is ready
    /// at the point of the call. The pass may end the claim, by an install or a release, and no other pass does.
    pub fn claim<R: Wait>(
        &self,
        rt: &R,
        alloc: Global,
        pass: &mut BoardPass<S>,
    ) -> Result<Option<Job<S>>, Memory>
        requires idle { IsIdleOf self.now pass.old }
        ensures called { IsCalled S.subject pass.old (Makes ClaimCall) (read_claim S.meaning result) pass.new }
        ensures may_end { IfOk result (λ job. IfSome job (λ j. MayEnd S.subject pass.new.seen pass.new.number (read_job S.meaning j))) }
        ensures given { IfOk result (λ job. IfSome job (λ j. IsGivenAtClaim S.subject pass.new.seen (read_job S.meaning j))) }
    {
        let mut board = self.take(rt, pass);
        let job = board.claim(alloc, Turns::number(pass));
        let may_have_more = board.may_have_job();
        self.give(pass, board);
        self.wake_after_claim(&job, may_have_more);
        job
    }

    /// Ends a claim by bringing its verdict; see `Board::install`. Stale exactly where the stamp of an input has changed since the
    /// claim. The verdict is the subject's answer by the library that the claim found. It takes no memory.
    ///
    /// The job is one that this board handed out to this pass, and not ended yet; the verdict is the subject's answer for the
    /// job's name, text and answers, as `judge` gives it.
    pub fn install<R: Wait>(
        &self,
        rt: &R,
        pass: &mut BoardPass<S>,
        job: Job<S>,
        verdict: S::Answer,
    ) -> Installed
        requires idle { IsIdleOf self.now pass.old }
        requires job { MayEnd S.subject pass.old.seen pass.old.number (read_job S.meaning job) }
        requires verdict { (library : Library) → IsGiven S.subject job.name job.text (read_answers S.meaning job.answers) library → S.subject.answer library job.name ≡ Some (S.meaning verdict) }
        ensures called { IsCalled S.subject pass.old (Makes (InstallCall job.claim)) (read_install result) pass.new }
        ensures verdict { S.subject.answer (library_after (take job.claim pass.new.seen)) job.name ≡ Some (S.meaning verdict) }
    {
        let mut board = self.take(rt, pass);
        let reply = board.install(Turns::number(pass), job, verdict);
        self.give(pass, board);
        self.tell_end();
        reply
    }

    /// Ends a claim without a verdict. The job is one that this board handed out to this pass, and not ended yet. It takes no
    /// memory.
    pub fn release<R: Wait>(&self, rt: &R, pass: &mut BoardPass<S>, job: Job<S>)
        requires idle { IsIdleOf self.now pass.old }
        requires job { MayEnd S.subject pass.old.seen pass.old.number (read_job S.meaning job) }
        ensures { IsCalled S.subject pass.old (Makes (ReleaseCall job.claim)) (Some NoReply) pass.new }
    {
        let mut board = self.take(rt, pass);
        board.release(Turns::number(pass), job);
        self.give(pass, board);
        self.wake_one();
        self.tell_end();
    }

    /// What is to be told of a name, with the version; see `Board::report`. Want of memory may come in place of a verdict alone.
    pub fn report<R: Wait>(
        &self,
        rt: &R,
        pass: &mut BoardPass<S>,
        name: &Name,
    ) -> Result<Told<S::Answer>, Memory>
        requires idle { IsIdleOf self.now pass.old }
        ensures { IsCalled S.subject pass.old (Reports name.now) (read_report S.meaning result) pass.new }
    {
        let told = self.report_before_turn(rt, pass, name);
        self.wake_after_report(&told);
        told
    }

    /// The same for whoever takes a turn where a verdict is to come: it wakes nobody, since the claim of that turn does where
    /// there may be more to do.
    pub fn report_before_turn<R: Wait>(
        &self,
        rt: &R,
        pass: &mut BoardPass<S>,
        name: &Name,
    ) -> Result<Told<S::Answer>, Memory>
        requires idle { IsIdleOf self.now pass.old }
        ensures { IsCalled S.subject pass.old (Reports name.now) (read_report S.meaning result) pass.new }
    {
        let board = self.take(rt, pass);
        let known = board.report(name);
        self.give(pass, board);
        known
    }

    /// The answers of what a name reaches, itself left out, in byte order; see `Board::answers`.
    pub fn answers<R: Wait>(
        &self,
        rt: &R,
        alloc: Global,
        pass: &mut BoardPass<S>,
        name: &Name,
    ) -> Result<Option<Answers<S::Answer>>, Memory>
        requires idle { IsIdleOf self.now pass.old }
        ensures { IsCalled S.subject pass.old (AsksAnswers name.now) (read_question S.meaning result) pass.new }
    {
        let board = self.take(rt, pass);
        let answers = board.answers(alloc, name);
        self.give(pass, board);
        answers
    }

    /// The place of the first module at a place or behind it whose verdict is to come; see `Board::first_pending`. It takes no
    /// memory.
    pub fn first_pending<R: Wait>(
        &self,
        rt: &R,
        pass: &mut BoardPass<S>,
        from: usize,
    ) -> Option<usize>
        requires idle { IsIdleOf self.now pass.old }
        ensures looks { LooksAt S.subject.dependencies pass.old pass.new }
        ensures pending { IsFirstPending S.subject.dependencies pass.new.seen from result }
    {
        let board = self.take(rt, pass);
        let place = board.first_pending(from);
        self.give(pass, board);
        place
    }

    /// Closes the board, through pass 0, if it is not closed. It takes no memory.
    pub fn close<R: Wait>(&self, rt: &R, pass: &mut BoardPass<S>)
        requires idle { IsIdleOf self.now pass.old }
        requires front { pass.old.number ≡ 0 }
        ensures { IsCalled S.subject pass.old (Makes CloseCall) (Some NoReply) pass.new }
    {
        let mut board = self.take(rt, pass);
        board.close(Turns::number(pass));
        self.give(pass, board);
        self.wake_all();
    }

    /// Whether the board was closed.
    pub fn closed<R: Wait>(&self, rt: &R, pass: &mut BoardPass<S>) -> bool
        requires idle { IsIdleOf self.now pass.old }
        ensures { IsCalled S.subject pass.old AsksClosed (Some (ClosedReply result)) pass.new }
    {
        let board = self.take(rt, pass);
        let closed = board.closed();
        self.give(pass, board);
        closed
    }
}
