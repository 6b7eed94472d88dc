//! Waits for a board that may have a job, for modules that are long enough to be shared, and for claims that end.

use crate::SharedBoard;
use crate::bell::Bell;
use edit_log::{Edit, EditFault, Edited};
use lf_terms::Memory;
use module_graph::Subject;
use std::sync::Wait;
use std::sync::atomic::Ordering::SeqCst;
use std::time::Duration;
use verdict_board::Told;

/// A text of so many bytes takes longer to judge than it takes to wake somebody.
const LONG: usize = 4_096;

/// How long is looked how fast modules are claimed, in microseconds.
const LOOK: u64 = 4_000;

/// A worker looks for at most some seconds, and then takes a turn however fast modules are claimed.
pub(crate) const MOST_LOOKS: u32 = 1_024;

/// Before its first turn a worker sleeps no longer than that, in microseconds. Until then whoever puts short texts and asks for no
/// verdict has the board alone.
const FIRST_REST: u64 = 1_000_000;

/// Whoever found nothing ready sleeps no longer than that, in microseconds, and then asks again though nobody was woken.
const LONGEST_REST: u64 = 100_000;

/// Where each claimant claims as many modules in that time, another one would hold up the turns of the others for longer than it takes to
/// judge what it claims.
const MOST_CLAIMS: u64 = 12;

/// Where fewer claims are open, a processor is free for one more on most machines.
const FEW_CLAIMS: u64 = 4;

/// A wait that is announced. Letting it go cancels the wait.
#[derive(Drop)]
pub struct Announced<'a> {
    bell: &'a Bell,
    heard: u64,
}

impl Announced<'_> {
    /// Sleeps until the board wakes those that wait, if it has not done so since the wait was announced, and at most for a tenth of a
    /// second. So whoever asks again behind it also finds what nobody was woken for.
    pub fn wait<R: Wait>(self, rt: &R) {
        self.bell
            .sleep(rt, self.heard, Duration::from_micros(LONGEST_REST));
    }
}

impl<S: Subject> SharedBoard<S> {
    /// Announces a wait for a job. A claim that comes behind it and finds no job may be followed by the wait: a later report that
    /// says that a verdict is to come ends it, a claim behind which a further module may be ready, a release, an edit that puts a
    /// long text, and a close. An edit that puts a short one does not, nor does a question for answers: the wait is over by itself
    /// then.
    pub fn announce(&self) -> Announced<'_> {
        Announced {
            bell: &self.jobs,
            heard: self.jobs.rings(),
        }
    }

    /// Sleeps until somebody is woken for the first time, or the board is closed, and at most for a second.
    pub fn wait_for_begin<R: Wait>(&self, rt: &R) {
        self.jobs.sleep(rt, 0, Duration::from_micros(FIRST_REST));
    }

    /// Sleeps until so many looks in a row have found that few enough modules are claimed, for each claim that is open, to be shared.
    /// A close ends it, and so do as many looks as a worker makes at most. One look may find none claimed only since whoever judges
    /// did not get a processor meanwhile.
    pub(crate) fn wait_while_short<R: Wait>(&self, rt: &R, looks: u32) {
        let mut long: u32 = 0;
        for _ in 0..MOST_LOOKS {
            let before = self.claims.load(SeqCst);
            self.rest(rt);
            if self.is_closed.load(SeqCst) != 0 {
                return;
            }
            let claimed = self.claims.load(SeqCst).wrapping_sub(before);
            let is_long = claimed / MOST_CLAIMS < self.open_claims().max(1);
            long = if is_long { long.saturating_add(1) } else { 0 };
            if long >= looks {
                return;
            }
        }
    }

    /// Sleeps for as long as one look takes, or until the board is closed.
    pub fn rest<R: Wait>(&self, rt: &R) {
        self.is_closed
            .park_timeout(rt, 0, Duration::from_micros(LOOK));
    }

    /// Whether some pass waits for its turn.
    pub(crate) fn is_crowded(&self) -> bool {
        self.waiting.load(SeqCst) > 0
    }

    /// How many claims are open. Those that were made before the board was shared are not counted.
    fn open_claims(&self) -> u64 {
        let ended = self.ended.load(SeqCst);
        self.claims.load(SeqCst).saturating_sub(ended)
    }

    /// Announces a wait for the end of a claim. Where a report that comes behind it says that a verdict is to come, and a claim
    /// behind that one finds no job, another claim is open, unless the board is closed, and the wait may follow: an install or a
    /// release ends it.
    pub fn announce_end(&self) -> Announced<'_> {
        Announced {
            bell: &self.ends,
            heard: self.ends.rings(),
        }
    }

    /// Whether as many claims are open as there are workers, and more than a few. Whoever waits for a verdict may sleep for a while
    /// then, in place of a turn: it might have no processor for itself.
    pub fn all_work(&self) -> bool {
        let open = self.open_claims();
        open >= FEW_CLAIMS && open >= self.workers.load(SeqCst)
    }

    /// Wakes all that wait for the end of a claim.
    pub(crate) fn tell_end(&self) {
        self.ended.fetch_add(1, SeqCst);
        self.ends.ring_for_all();
    }

    /// Wakes one that waits for a job.
    pub(crate) fn wake_one(&self) {
        self.jobs.ring_for_one();
    }

    /// Wakes all that wait for a job or that look how fast modules are claimed, where the board is closed.
    pub(crate) fn wake_all(&self) {
        self.is_closed.store(1, SeqCst);
        self.is_closed.wake_all();
        self.jobs.ring_for_all();
    }

    /// Wakes one that waits, where an edit was made that puts a long text.
    pub(crate) fn wake_after_edit(&self, is_long: bool, answer: &Result<Edited, EditFault>) {
        if is_long && matches!(answer, Ok(Edited::Made(_))) {
            self.wake_one();
        }
    }

    /// Wakes one that waits, where a report said that a verdict is to come.
    pub(crate) fn wake_after_report(&self, told: &Result<Told<S::Answer>, Memory>) {
        if matches!(told, Ok(Told::Pending { .. })) {
            self.wake_one();
        }
    }

    /// Counts a claim that found a module, and wakes one that waits, where behind the claim a further module may be ready.
    pub(crate) fn wake_after_claim<A>(
        &self,
        claimed: &Result<Option<A>, Memory>,
        may_have_more: bool,
    ) {
        if matches!(claimed, Ok(Some(_))) {
            self.claims.fetch_add(1, SeqCst);
        }
        if may_have_more {
            self.wake_one();
        }
    }
}

/// Whether an edit puts a long text.
pub(crate) fn puts_long(edit: &Edit) -> bool {
    match edit {
        Edit::Put { text, .. } => text.get().as_slice().len() >= LONG,
        Edit::Drop { .. } => false,
    }
}
