//! What is told of verdicts.
ghost use Rattle.std.specs.Prelude.{◌≡◌, true, false, Some, IfOk, OnErr};
ghost use Rattle.std.specs.Option.{option_copied, option_map};
ghost use Rattle.name_meaning.specs.Names.{Name, same_name};
ghost use Rattle.name_meaning.specs.Rows.{row_of};
ghost use Rattle.edit_log_meaning.specs.Log.{is_present};
ghost use Rattle.module_graph_meaning.specs.Reach.{reach};
ghost use Rattle.module_graph_meaning.specs.Subject.{present_answer, answers_of};
ghost use Rattle.list_laws.proofs.Members.{Member};
ghost use Rattle.board_meaning.specs.Events.{library_after};
ghost use Rattle.board_meaning.specs.Machine.{is_known, report_reply, answers_reply};
ghost use Rattle.board_meaning.specs.Points.{is_verdict};
ghost use Rattle.module_graph.specs.Subjects.{read_answers};
ghost use Rattle.verdict_board.specs.Readings.{read_told};

use crate::stage::Stage;
use crate::{Board, Told};
use lf_terms::{Memory, Name, Names};
use module_graph::{Answers, Subject};
use name_table::NameTable;
use std::alloc::Global;

impl<S: Subject> Board<S> {
    /// What is to be told of a name, with the version. Absent: the library lacks the name. Its verdict: it is ungrounded, or has
    /// a standing verdict. Else its verdict is to come. It shares the answer, so want of memory may come in place of a
    /// verdict alone.
    pub fn report(&self, name: &Name) -> Result<Told<S::Answer>, Memory>
        ensures told { IfOk result (λ told. read_told S.meaning told ≡ report_reply S.subject self.now name.now) }
        ensures memory { OnErr result (is_verdict (report_reply S.subject self.now name.now) ≡ true) }
    {
        let version = self.log.version();
        let Some(stage) = self.stages.get(name) else {
            return Ok(Told::Absent { version });
        };
        match stage.answer() {
            Some(answer) => Ok(Told::Verdict {
                answer: S::share(answer)?,
                version,
            }),
            None => Ok(Told::Pending { version }),
        }
    }

    /// The answers of what a name reaches, itself left out, in byte order. None exactly where the library lacks the name, or it
    /// is ungrounded, or has no standing verdict.
    pub fn answers(&self, alloc: Global, name: &Name) -> Result<Option<Answers<S::Answer>>, Memory>
        ensures { IfOk result (λ answers. option_map (read_answers S.meaning) answers ≡ answers_reply S.subject self.now name.now) }
    {
        let Some(stage) = self.stages.get(name) else {
            return Ok(None);
        };
        match stage.standing() {
            Some(inputs) => Ok(Some(self.answers_among(alloc, name, inputs)?)),
            None => Ok(None),
        }
    }

    /// The answers of what a name reaches, itself left out, where the answers of all present names may be told.
    pub(crate) fn answers_among(
        &self,
        alloc: Global,
        name: &Name,
        reached: &Names,
    ) -> Result<Answers<S::Answer>, Memory>
        requires reached { reached.now ≡ reach S.subject.dependencies (library_after self.now) name.now }
        requires known { (other : Name) → Member other reached.now → same_name name.now other ≡ false → is_present (library_after self.now) other ≡ true → is_known S.subject.dependencies self.now other ≡ true }
        ensures { IfOk result (λ answers. read_answers S.meaning answers ≡ answers_of S.subject (library_after self.now) name.now) }
    {
        let mut answers = Answers::new(alloc);
        let mut near = 0;
        for other in reached.as_slice() {
            if name == other {
                continue;
            }
            let answer = self.answer_of(other, &mut near)?;
            match answers.push(other.copy(alloc)?, answer) {
                Ok(()) => {}
                Err(_) => return Err(Memory),
            }
        }
        Ok(answers)
    }

    /// The answer of a name, where it may be told if the name is present; none of an absent name. It is looked for at a place first,
    /// which is then the one behind it.
    fn answer_of(&self, name: &Name, near: &mut usize) -> Result<Option<S::Answer>, Memory>
        requires { is_present (library_after self.now) name.now ≡ true → is_known S.subject.dependencies self.now name.now ≡ true }
        ensures { IfOk result (λ answer. option_map S.meaning answer ≡ present_answer S.subject (library_after self.now) name.now) }
    {
        let Some(stage) = stage_near(&self.stages, name, near) else {
            return Ok(None);
        };
        match stage.answer() {
            Some(answer) => Ok(Some(S::share(answer)?)),
            None => Ok(None),
        }
    }
}

/// How a module stands. It is looked for at a place first, which is then the one behind it: for names in byte order that lie close the
/// table is not searched.
fn stage_near<'a, A: Drop>(
    stages: &'a NameTable<Stage<A>>,
    name: &Name,
    near: &mut usize,
) -> Option<&'a Stage<A>>
    ensures { option_copied result ≡ row_of stages.now name.now }
{
    let count = stages.len();
    let place = *near;
    if place < count {
        let (other, stage) = stages.row_at(place);
        if other == name {
            *near = place + 1;
            return Some(stage);
        }
    }
    match stages.place(name) {
        Ok(found) => {
            *near = found + 1;
            Some(stages.row_at(found).1)
        }
        Err(_) => None,
    }
}
