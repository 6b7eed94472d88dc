//! The end of a claim: its verdict is installed, or it is found stale, or it is released.
ghost use Rattle.std.specs.Prelude.{◌≡◌, true, None, Some, MatchBool, MatchOption};
ghost use Rattle.edit_log_meaning.specs.Log.{Library};
ghost use Rattle.board_meaning.specs.Claims.{first_changed};
ghost use Rattle.board_meaning.specs.Machine.{job_of, install_reply, IsInstalled, may_call, InstallCall, ReleaseCall, after_call};
ghost use Rattle.module_graph.specs.Subjects.{IsGiven, read_answers};
ghost use Rattle.verdict_board.specs.Readings.{read_inputs, read_installed, read_job};
ghost use Rattle.verdict_board.specs.Stages.{IsCurrent};
ghost use Rattle.verdict_board.specs.Changes.{IsFirstChanged};

use crate::candidates::{stand, wait};
use crate::stage::Stage;
use crate::trail::{Trail, noted};
use crate::{Board, Entry, Event, Input, Inputs, Installed, Job};
use lf_terms::Name;
use module_graph::Subject;

impl<S: Subject> Board<S> {
    /// Ends a claim by bringing its verdict. Stale exactly where the stamp of an input has changed since the claim: it names the
    /// first such input and its present stamp, which is greater. It takes no memory.
    ///
    /// The job is one that this board handed out to this pass, and not ended yet; the verdict is the subject's answer for the
    /// job's name, text and answers, as `judge` gives it.
    pub fn install(&mut self, pass: u32, job: Job<S>, verdict: S::Answer) -> Installed
        requires job { job_of S.subject self.old job.claim ≡ Some (read_job S.meaning job) }
        requires may { may_call self.old pass (InstallCall job.claim) ≡ true }
        requires verdict { (library : Library) → IsGiven S.subject job.name job.text (read_answers S.meaning job.answers) library → S.subject.answer library job.name ≡ Some (S.meaning verdict) }
        ensures reply { read_installed result ≡ install_reply S.subject.dependencies self.old job.claim }
        ensures history { self.new ≡ after_call S.subject.dependencies self.old pass (InstallCall job.claim) }
    {
        if self.is_current(&job.name, job.claim) {
            self.end_installed(pass, job, verdict);
            return Installed::Installed;
        }
        match self.first_changed(job.inputs()) {
            Some((place, newer)) => self.end_stale(pass, job, place, newer),
            None => {
                self.end_installed(pass, job, verdict);
                Installed::Installed
            }
        }
    }

    /// Ends a claim without a verdict. The job is one that this board handed out to this pass, and not ended yet. It takes no
    /// memory.
    pub fn release(&mut self, pass: u32, job: Job<S>)
        requires job { job_of S.subject self.old job.claim ≡ Some (read_job S.meaning job) }
        requires may { may_call self.old pass (ReleaseCall job.claim) ≡ true }
        ensures history { self.new ≡ after_call S.subject.dependencies self.old pass (ReleaseCall job.claim) }
    {
        let Job {
            claim,
            name,
            text: _,
            inputs: _,
            names: _,
            answers: _,
        } = job;
        let current = self.is_current(&name, claim);
        let version = self.log.version();
        self.history = noted(&self.history, pass, version, Event::Release { claim });
        self.entries += 1;
        self.opened -= 1;
        if current {
            wait(&mut self.stages, &mut self.candidates, &name);
        }
    }

    /// Ends a claim none of whose inputs has changed.
    fn end_installed(&mut self, pass: u32, job: Job<S>, verdict: S::Answer)
        requires job { job_of S.subject self.old job.claim ≡ Some (read_job S.meaning job) }
        requires may { may_call self.old pass (InstallCall job.claim) ≡ true }
        requires verdict { (library : Library) → IsGiven S.subject job.name job.text (read_answers S.meaning job.answers) library → S.subject.answer library job.name ≡ Some (S.meaning verdict) }
        requires unchanged { install_reply S.subject.dependencies self.old job.claim ≡ IsInstalled }
        ensures history { self.new ≡ after_call S.subject.dependencies self.old pass (InstallCall job.claim) }
    {
        let Job {
            claim,
            name,
            text: _,
            inputs: _,
            names,
            answers: _,
        } = job;
        let stage = Stage::Standing {
            answer: verdict,
            inputs: names,
        };
        stand(&mut self.stages, &mut self.candidates, &name, stage);
        let version = self.log.version();
        self.history = noted(&self.history, pass, version, Event::Install { claim });
        self.entries += 1;
        self.opened -= 1;
        self.installed += 1;
    }

    /// Ends a claim whose input at this place is the first that has changed, to this stamp.
    fn end_stale(&mut self, pass: u32, job: Job<S>, place: usize, newer: u32) -> Installed
        requires job { job_of S.subject self.old job.claim ≡ Some (read_job S.meaning job) }
        requires may { may_call self.old pass (InstallCall job.claim) ≡ true }
        requires changed { IsFirstChanged self.old job.inputs place newer }
        ensures reply { read_installed result ≡ install_reply S.subject.dependencies self.old job.claim }
        ensures history { self.new ≡ after_call S.subject.dependencies self.old pass (InstallCall job.claim) }
    {
        let Job {
            claim,
            name: _,
            text: _,
            inputs,
            names: _,
            answers: _,
        } = job;
        let mut items = inputs.into_vec();
        let Input { name, stamp: _ } = items.remove(place);
        let entry = Entry {
            pass,
            version: self.log.version(),
            event: Event::Stale { claim, name, newer },
        };
        self.history = Trail::with(&self.history, &entry);
        self.entries += 1;
        self.opened -= 1;
        let Entry { event, .. } = entry;
        match event {
            Event::Stale { name, newer, .. } => Installed::Stale { name, newer },
            _ => unreachable!(),
        }
    }

    /// The place of the first input whose stamp has changed, with its present stamp, if there is one.
    fn first_changed(&self, inputs: &Inputs) -> Option<(usize, u32)>
        ensures { MatchOption result (first_changed self.now (read_inputs inputs.now) ≡ None) (λ found. IsFirstChanged self.now (read_inputs inputs.now) found.0 found.1) }
    {
        for (place, input) in inputs.as_slice().iter().enumerate() {
            let stamp = self.log.stamp(&input.name);
            if stamp != input.stamp {
                return Some((place, stamp));
            }
        }
        None
    }

    /// Whether this claim of the name is open, and none of its inputs has changed.
    fn is_current(&self, name: &Name, claim: u64) -> bool
        ensures { MatchBool result (IsCurrent S.subject.dependencies self.now name.now claim) (IsCurrent S.subject.dependencies self.now name.now claim → ⊥) }
    {
        match self.stages.get(name) {
            Some(stage) => match stage.claim() {
                Some(current) => current == claim,
                None => false,
            },
            None => false,
        }
    }
}
