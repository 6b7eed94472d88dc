//! The subject of modules.
ghost use Rattle.verdict_meaning.specs.Verdicts as meaning;
ghost use Rattle.verdict_meaning.specs.Rounds.{modules};
ghost use Rattle.mmt_interface.specs.Readings.{read_verdict};
ghost use Rattle.module_check.specs.Lawful.{modules_lawful};

use crate::cycles::cyclic;
use crate::dependencies::dependencies;
use crate::judging::judge;
use lf_terms::{Memory, Name, Names, Steps};
use mmt_interface::Verdict;
use module_graph::{Answers, Subject};
use std::alloc::Global;
use std::sync::ledger::Ledger;

/// Modules of theories and views: their dependencies are the modules that their texts name, and their answers the verdicts on
/// them.
#[derive(Drop)]
pub struct Mmt;

impl Subject for Mmt {
    type Answer = Verdict;

    ghost Meaning = { meaning.Verdict };

    ghost meaning = { read_verdict };

    ghost subject = { modules };

    fn share(answer: &Verdict) -> Result<Verdict, Memory> {
        answer.share()
    }

    fn deps(&self, alloc: Global, name: &Name, text: &[u8]) -> Result<Names, Memory> {
        dependencies(alloc, name, text)
    }

    fn judge<L: Ledger>(
        &self,
        alloc: Global,
        name: &Name,
        text: &[u8],
        answers: &Answers<Verdict>,
        steps: &mut Steps<L>,
    ) -> Result<Verdict, Memory> {
        judge(alloc, name, text, answers, steps)
    }

    fn cyclic(
        &self,
        alloc: Global,
        name: &Name,
        text: &[u8],
        bad: &Names,
    ) -> Result<Verdict, Memory> {
        cyclic(alloc, name, text, bad)
    }

    ghost lawful = { modules_lawful };
}
