//! Claims of modules that are ready to be judged.
ghost use Rattle.std.specs.Prelude.{◌≡◌, true, IfOk, IfSome, OnErr, OnOk};
ghost use Rattle.std.specs.Option.{option_map};
ghost use Rattle.board_meaning.specs.Events.{library_after};
ghost use Rattle.board_meaning.specs.Ready.{least_ready};
ghost use Rattle.board_meaning.specs.Machine.{claim_reply, ClaimCall, after_call};
ghost use Rattle.module_graph.specs.Subjects.{IsGiven};
ghost use Rattle.verdict_board.specs.Readings.{read_inputs, read_job, inputs_of_names};

use crate::candidates::first_ready;
use crate::stage::Stage;
use crate::trail::noted;
use crate::{Board, Event, Input, Inputs, Job};
use lf_terms::{Memory, Name, Names};
use module_graph::Subject;
use std::alloc::Global;

/// A board with so many entries, or so many open claims, takes no further entries: the counts stay within their type.
pub const MOST: u64 = 1 << 62;

impl<S: Subject> Board<S> {
    /// Claims the least ready name in byte order, for a worker to judge. None exactly where no name is ready.
    ///
    /// A module of the library is ready where it is grounded, has no standing verdict, each of its present dependencies has one,
    /// no open claim of it has all its inputs unchanged, and the board is not closed.
    pub fn claim(&mut self, alloc: Global, pass: u32) -> Result<Option<Job<S>>, Memory>
        ensures job { IfOk result (λ job. option_map (read_job S.meaning) job ≡ claim_reply S.subject self.old) }
        ensures given { IfOk result (λ job. IfSome job (λ j. IsGiven S.subject j.name j.text (read_job S.meaning j).answers (library_after self.old))) }
        ensures history { OnOk result (self.new ≡ after_call S.subject.dependencies self.old pass ClaimCall) }
        ensures unchanged { OnErr result (self.new ≡ self.old) }
    {
        let Some(name) = self.least_ready(alloc)? else {
            return Ok(None);
        };
        if self.entries >= MOST || self.opened >= MOST {
            return Err(Memory);
        }
        let names = self.reach_of(alloc, &name)?;
        let inputs = self.inputs(alloc, names.get())?;
        let answers = self.answers_among(alloc, &name, names.get())?;
        let Some(text) = self.log.share_text(&name)? else {
            unreachable!();
        };
        let kept = names.share()?;
        let claimed = name.copy(alloc)?;
        let claim = self.entries;
        let stage = Stage::Claimed {
            claim,
            inputs: kept,
        };
        self.stages.replace(&name, stage);
        let version = self.log.version();
        self.history = noted(&self.history, pass, version, Event::Claim(claimed));
        self.entries += 1;
        self.opened += 1;
        Ok(Some(Job {
            claim,
            name,
            text,
            inputs,
            names,
            answers,
        }))
    }

    /// The least ready name in byte order, if one is ready.
    fn least_ready(&mut self, alloc: Global) -> Result<Option<Name>, Memory>
        ensures least { IfOk result (λ name. name ≡ least_ready S.subject.dependencies self.old) }
        ensures unchanged { self.new ≡ self.old }
    {
        if self.closed {
            return Ok(None);
        }
        match first_ready(&self.stages, &self.graph, &mut self.candidates) {
            Ok(Some(place)) => Ok(Some(self.stages.row_at(place).0.copy(alloc)?)),
            Ok(None) => Ok(None),
            Err(fault) => Err(fault),
        }
    }

    /// These names with their stamps.
    fn inputs(&self, alloc: Global, names: &Names) -> Result<Inputs, Memory>
        ensures { IfOk result (λ inputs. read_inputs inputs ≡ inputs_of_names self.now names.now) }
    {
        let mut inputs = Vec::with_capacity(alloc, names.len())?;
        for name in names.as_slice() {
            inputs.push(Input {
                name: name.copy(alloc)?,
                stamp: self.log.stamp(name),
            })?;
        }
        Ok(Inputs::from_vec(inputs))
    }
}
