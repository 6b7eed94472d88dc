//! The answers of a name's reach, where they are known.
ghost use Rattle.std.specs.Prelude.{◌≡◌, ◌∷◌, ◌++◌, [], true, IfOk, OnOk};
ghost use Rattle.std.specs.Option.{option_map};
ghost use Rattle.name_meaning.specs.Names.{is_among};
ghost use Rattle.name_meaning.specs.Rows.{row_names, IsTable};
ghost use Rattle.edit_log_meaning.specs.Log.{is_present, library_of};
ghost use Rattle.text_meaning.specs.Dependencies.{dependencies};
ghost use Rattle.module_graph_meaning.specs.Graphs.{HoldsDependencies};
ghost use Rattle.module_graph_meaning.specs.Subject.{answers_of, present_answer};
ghost use Rattle.verdict_meaning.specs.Rounds.{modules};
ghost use Rattle.mmt_interface.specs.Readings.{read_verdict};
ghost use Rattle.module_graph.specs.Subjects.{read_answers};
ghost use Rattle.module_check.specs.JudgingOrders.{HasReachOf};
ghost use Rattle.module_check.specs.Known.{AreVerdicts};

use edit_log::Log;
use lf_terms::{Memory, Name};
use mmt_interface::{Faces, Verdict};
use module_graph::{Answers, Graph, reach};
use std::alloc::Global;

/// The verdicts of what a name reaches, itself left out, in byte order. Those on all present names of it are at hand.
pub(crate) fn known_answers(
    alloc: Global,
    log: &Log,
    graph: &Graph,
    faces: &Faces,
    name: &Name,
) -> Result<Answers<Verdict>, Memory>
    requires holds { HoldsDependencies graph.now dependencies (library_of log.now) }
    requires verdicts { AreVerdicts (library_of log.now) faces.now }
    requires reach { HasReachOf (library_of log.now) (row_names faces.now) name.now }
    ensures { IfOk result (λ answers. read_answers read_verdict answers ≡ answers_of modules (library_of log.now) name.now) }
{
    let reached = reach(alloc, graph, name)?;
    let mut answers = Answers::new(alloc);
    for other in reached.as_slice() {
        if name == other {
            continue;
        }
        let answer = known_answer(log, faces, other)?;
        push_answer(alloc, &mut answers, other, answer)?;
    }
    Ok(answers)
}

/// Adds the answer of a name that comes next in byte order.
fn push_answer(
    alloc: Global,
    answers: &mut Answers<Verdict>,
    name: &Name,
    answer: Option<Verdict>,
) -> Result<(), Memory>
    requires { IsTable (answers.old ++ (name.now, answer) ∷ []) }
    ensures { OnOk result (answers.new ≡ answers.old ++ (name.now, answer) ∷ []) }
{
    let Ok(name) = name.copy(alloc) else {
        drop(answer);
        return Err(Memory);
    };
    match answers.push(name, answer) {
        Ok(()) => Ok(()),
        Err(back) => {
            drop(back);
            Err(Memory)
        }
    }
}

/// The verdict of a name; none of an absent name.
fn known_answer(log: &Log, faces: &Faces, name: &Name) -> Result<Option<Verdict>, Memory>
    requires verdicts { AreVerdicts (library_of log.now) faces.now }
    requires there { is_present (library_of log.now) name.now ≡ true → is_among (row_names faces.now) name.now ≡ true }
    ensures { IfOk result (λ answer. option_map read_verdict answer ≡ present_answer modules (library_of log.now) name.now) }
{
    match faces.get(name) {
        Some(verdict) => Ok(Some(verdict.share()?)),
        None => match log.text(name) {
            Some(_) => unreachable!(),
            None => Ok(None),
        },
    }
}
