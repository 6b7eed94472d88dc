//! The verdicts of a library, from its texts alone.
ghost use Rattle.std.specs.Prelude.{◌≡◌, ◌∷◌, ◌++◌, [], List, ℕ, true, false, IfOk, OnOk};
ghost use Rattle.name_meaning.specs.Names.{is_among};
ghost use Rattle.name_meaning.specs.Rows.{row_names, row_of};
ghost use Rattle.edit_log_meaning.specs.Log.{library_of};
ghost use Rattle.text_meaning.specs.Dependencies.{dependencies};
ghost use Rattle.module_graph_meaning.specs.Graphs.{HoldsDependencies, graph_grounded};
ghost use Rattle.module_graph_meaning.specs.Walks.{is_grounded, is_ungrounded, ungrounded_names};
ghost use Rattle.verdict_meaning.specs.Rounds.{verdict_of};
ghost use Rattle.mmt_interface.specs.CoherentFaces.{AreCoherent};
ghost use Rattle.mmt_interface.specs.Readings.{read_faces};
ghost use Rattle.module_check.specs.JudgingOrders.{HasReachOf, HaveAll};
ghost use Rattle.module_check.specs.Known.{AreVerdicts};

use crate::answered::add;
use crate::cycles::cyclic;
use crate::judging::judged;
use crate::judging_order::by_reach;
use crate::known_answers::known_answers;
use crate::library_graph::graph_of;
use crate::ungrounded::others;
use edit_log::Log;
use lf_terms::{Memory, Name, Names};
use mmt_interface::Faces;
use module_graph::{Graph, grounded};
use std::alloc::Global;

/// The verdict on each module of a log's library, from the texts alone. First come the ungrounded modules, then the grounded
/// ones, each after those that it reaches. A grounded module is judged once. A name that is not there is that of an absent
/// module. The verdicts are coherent, as calls that take faces ask.
pub fn scratch(alloc: Global, log: &Log) -> Result<Faces, Memory>
    ensures verdicts { IfOk result (λ faces. (name : List ℕ) → row_of (read_faces faces) name ≡ verdict_of (library_of log.now) name) }
    ensures coherent { IfOk result (λ faces. AreCoherent faces) }
{
    let graph = graph_of(alloc, log)?;
    let found = faces_over(alloc, log, &graph);
    drop(graph);
    let faces = found?;
    Ok(faces)
}

/// The verdict on each module, where this is the graph of the library.
fn faces_over(alloc: Global, log: &Log, graph: &Graph) -> Result<Faces, Memory>
    requires { HoldsDependencies graph.now dependencies (library_of log.now) }
    ensures verdicts { IfOk result (λ faces. AreVerdicts (library_of log.now) faces) }
    ensures all { IfOk result (λ faces. HaveAll (library_of log.now) (row_names faces)) }
{
    let known = grounded(alloc, graph)?;
    let mut faces = Faces::new(alloc);
    let added = add_all(alloc, log, graph, &known, &mut faces);
    drop(known);
    match added {
        Ok(()) => Ok(faces),
        Err(fault) => {
            drop(faces);
            Err(fault)
        }
    }
}

/// Adds the verdicts on all modules, where the grounded names are these and there is no verdict yet.
fn add_all(
    alloc: Global,
    log: &Log,
    graph: &Graph,
    known: &Names,
    faces: &mut Faces,
) -> Result<(), Memory>
    requires holds { HoldsDependencies graph.now dependencies (library_of log.now) }
    requires grounded { known.now ≡ graph_grounded graph.now }
    requires nothing { faces.old ≡ [] }
    ensures verdicts { OnOk result (AreVerdicts (library_of log.now) faces.new) }
    ensures all { OnOk result (HaveAll (library_of log.now) (row_names faces.new)) }
{
    add_ungrounded(alloc, log, graph, known, faces)?;
    add_grounded(alloc, log, graph, known, faces)
}

/// Adds the verdicts on the ungrounded modules, where the grounded names are these and there is no verdict yet.
fn add_ungrounded(
    alloc: Global,
    log: &Log,
    graph: &Graph,
    known: &Names,
    faces: &mut Faces,
) -> Result<(), Memory>
    requires holds { HoldsDependencies graph.now dependencies (library_of log.now) }
    requires grounded { known.now ≡ graph_grounded graph.now }
    requires nothing { faces.old ≡ [] }
    ensures verdicts { OnOk result (AreVerdicts (library_of log.now) faces.new) }
    ensures names { OnOk result (row_names faces.new ≡ ungrounded_names dependencies (library_of log.now)) }
{
    let bad = others(alloc, graph, known)?;
    for name in bad.as_slice() {
        add_cyclic(alloc, log, &bad, name, faces)?;
    }
    Ok(())
}

/// Adds the verdict on an ungrounded module, where these are the ungrounded names.
fn add_cyclic(
    alloc: Global,
    log: &Log,
    bad: &Names,
    name: &Name,
    faces: &mut Faces,
) -> Result<(), Memory>
    requires ungrounded { is_ungrounded dependencies (library_of log.now) name.now ≡ true }
    requires others { bad.now ≡ ungrounded_names dependencies (library_of log.now) }
    requires verdicts { AreVerdicts (library_of log.now) faces.old }
    requires new { is_among (row_names faces.old) name.now ≡ false }
    ensures verdicts { OnOk result (AreVerdicts (library_of log.now) faces.new) }
    ensures names { OnOk result (row_names faces.new ≡ row_names faces.old ++ name.now ∷ []) }
{
    let Some(text) = log.text(name) else {
        unreachable!();
    };
    let verdict = cyclic(alloc, name, text, bad)?;
    let Ok(name) = name.copy(alloc) else {
        drop(verdict);
        return Err(Memory);
    };
    add(faces, name, verdict)
}

/// Adds the verdicts on the grounded modules, whose names these are, where those on the ungrounded ones are there.
fn add_grounded(
    alloc: Global,
    log: &Log,
    graph: &Graph,
    known: &Names,
    faces: &mut Faces,
) -> Result<(), Memory>
    requires holds { HoldsDependencies graph.now dependencies (library_of log.now) }
    requires grounded { known.now ≡ graph_grounded graph.now }
    requires verdicts { AreVerdicts (library_of log.now) faces.old }
    requires names { row_names faces.old ≡ ungrounded_names dependencies (library_of log.now) }
    ensures verdicts { OnOk result (AreVerdicts (library_of log.now) faces.new) }
    ensures all { OnOk result (HaveAll (library_of log.now) (row_names faces.new)) }
{
    let order = by_reach(alloc, graph, known)?;
    for name in order.as_slice() {
        add_judged(alloc, log, graph, name, faces)?;
    }
    Ok(())
}

/// Adds the verdict on a grounded module, where those on what it reaches are there.
fn add_judged(
    alloc: Global,
    log: &Log,
    graph: &Graph,
    name: &Name,
    faces: &mut Faces,
) -> Result<(), Memory>
    requires holds { HoldsDependencies graph.now dependencies (library_of log.now) }
    requires grounded { is_grounded dependencies (library_of log.now) name.now ≡ true }
    requires verdicts { AreVerdicts (library_of log.now) faces.old }
    requires reach { HasReachOf (library_of log.now) (row_names faces.old) name.now }
    requires new { is_among (row_names faces.old) name.now ≡ false }
    ensures verdicts { OnOk result (AreVerdicts (library_of log.now) faces.new) }
    ensures names { OnOk result (row_names faces.new ≡ row_names faces.old ++ name.now ∷ []) }
{
    let Some(text) = log.text(name) else {
        unreachable!();
    };
    let answers = known_answers(alloc, log, graph, faces, name)?;
    let found = judged(alloc, name, text, &answers);
    drop(answers);
    let verdict = found?;
    let Ok(name) = name.copy(alloc) else {
        drop(verdict);
        return Err(Memory);
    };
    add(faces, name, verdict)
}
