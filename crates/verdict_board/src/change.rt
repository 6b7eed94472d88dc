//! Tables that an edit changes.
ghost use Rattle.std.specs.Prelude.{◌≡◌, ℕ, true, false, is_some, OnErr, OnOk};
ghost use Rattle.name_meaning.specs.Rows.{row_names, row_of, with_row, without_row, IsTable};
ghost use Rattle.edit_log_meaning.specs.Log.{edited_name};
ghost use Rattle.edit_log_meaning.specs.Append.{Made, append_answer, appended};
ghost use Rattle.edit_log.specs.Readings.{read_edit, IsAnswer};
ghost use Rattle.verdict_board.specs.declared.stage.Stage.TheVariants.{Waiting};
ghost use Rattle.verdict_board.specs.Searching.{AreKept};
ghost use Rattle.verdict_board.specs.Stages.{fallen, HaveSortedInputs};
ghost use Rattle.verdict_board.specs.Tables.{graph_changed, graph_in_place, rings_in, stages_changed, stages_in_place, AreTables};

use crate::candidates::{Candidates, renew, wait_at};
use crate::marked_names::bit_of;
use crate::stage::Stage;
use edit_log::{Edit, EditFault, Edited, Log};
use lf_terms::{Arc, Memory, Name, Names};
use module_graph::Graph;
use name_table::NameTable;
use std::alloc::Global;

/// What an edit does to the tables of dependencies and of stages.
#[derive(Drop)]
pub enum Change<A> {
    /// All modules are grounded after it, so they are changed in place; with the direct dependencies of the text that is put.
    InPlace {
        dependencies: Names,
    },
    /// These were made beside them, and a module is ungrounded after it only where there are rings.
    Anew {
        graph: Graph,
        stages: NameTable<Stage<A>>,
        rings: bool,
    },
}

impl<A> Change<A> {
    /// Whether a module may be ungrounded after the edit.
    pub fn rings(&self) -> bool
        ensures { result ≡ rings_in self.now }
    {
        match self {
            Change::InPlace { .. } => false,
            Change::Anew { rings, .. } => *rings,
        }
    }
}

/// Makes an edit in a log, and changes the tables. For want of memory nothing changes.
pub fn make_edit<A: Drop>(
    alloc: Global,
    log: &mut Log,
    graph: &mut Graph,
    stages: &mut NameTable<Stage<A>>,
    candidates: &mut Candidates,
    how: Change<A>,
    edit: Edit,
) -> Result<Edited, EditFault>
    requires made { (version : ℕ) × (append_answer log.old (read_edit edit) ≡ Made version) }
    requires sorted { HaveSortedInputs stages.old }
    requires kept { AreKept stages.old graph.old candidates.old }
    requires tables { AreTables how }
    ensures answer { IsAnswer result (append_answer log.old (read_edit edit)) }
    ensures log { OnOk result (log.new ≡ appended log.old (read_edit edit)) }
    ensures graph { OnOk result (graph.new ≡ graph_changed how (read_edit edit) graph.old) }
    ensures stages { OnOk result (stages.new ≡ stages_changed how (read_edit edit) stages.old) }
    ensures kept { OnOk result (AreKept stages.new graph.new candidates.new) }
    ensures log_unchanged { OnErr result (log.new ≡ log.old) }
    ensures graph_unchanged { OnErr result (graph.new ≡ graph.old) }
    ensures stages_unchanged { OnErr result (stages.new ≡ stages.old) }
    ensures candidates_unchanged { OnErr result (candidates.new ≡ candidates.old) }
{
    match how {
        Change::Anew {
            graph: next_graph,
            stages: next_stages,
            rings: _,
        } => {
            let next_candidates = Candidates::new(alloc, next_graph.len())?;
            let answer = match log.append(alloc, edit) {
                Ok(answer) => answer,
                Err(fault) => return Err(fault),
            };
            *graph = next_graph;
            *stages = next_stages;
            *candidates = next_candidates;
            Ok(answer)
        }
        Change::InPlace { dependencies } => {
            change_in_place(alloc, log, graph, stages, candidates, dependencies, edit)
        }
    }
}

/// Makes an edit in a log, and changes the tables in place as for an edit after which all modules are grounded.
fn change_in_place<A: Drop>(
    alloc: Global,
    log: &mut Log,
    graph: &mut Graph,
    stages: &mut NameTable<Stage<A>>,
    candidates: &mut Candidates,
    dependencies: Names,
    edit: Edit,
) -> Result<Edited, EditFault>
    requires made { (version : ℕ) × (append_answer log.old (read_edit edit) ≡ Made version) }
    requires sorted { HaveSortedInputs stages.old }
    requires kept { AreKept stages.old graph.old candidates.old }
    ensures answer { IsAnswer result (append_answer log.old (read_edit edit)) }
    ensures log { OnOk result (log.new ≡ appended log.old (read_edit edit)) }
    ensures graph { OnOk result (graph.new ≡ graph_in_place dependencies (read_edit edit) graph.old) }
    ensures stages { OnOk result (stages.new ≡ stages_in_place (read_edit edit) stages.old) }
    ensures kept { OnOk result (AreKept stages.new graph.new candidates.new) }
    ensures log_unchanged { OnErr result (log.new ≡ log.old) }
    ensures graph_unchanged { OnErr result (graph.new ≡ graph.old) }
    ensures stages_unchanged { OnErr result (stages.new ≡ stages.old) }
    ensures candidates_unchanged { OnErr result (candidates.new ≡ candidates.old) }
{
    let Edit::Put { name, .. } = &edit else {
        return drop_module(alloc, log, graph, stages, candidates, edit);
    };
    if stages.get(name).is_some() {
        put_again(alloc, log, graph, stages, candidates, dependencies, edit)
    } else {
        put_new(alloc, log, graph, stages, candidates, dependencies, edit)
    }
}

/// Makes an edit in a log that takes a module out.
fn drop_module<A: Drop>(
    alloc: Global,
    log: &mut Log,
    graph: &mut Graph,
    stages: &mut NameTable<Stage<A>>,
    candidates: &mut Candidates,
    edit: Edit,
) -> Result<Edited, EditFault>
    requires made { (version : ℕ) × (append_answer log.old (read_edit edit) ≡ Made version) }
    requires sorted { HaveSortedInputs stages.old }
    requires kept { AreKept stages.old graph.old candidates.old }
    ensures answer { IsAnswer result (append_answer log.old (read_edit edit)) }
    ensures log { OnOk result (log.new ≡ appended log.old (read_edit edit)) }
    ensures graph { OnOk result (graph.new ≡ without_row (edited_name (read_edit edit)) graph.old) }
    ensures stages { OnOk result (stages.new ≡ fallen (edited_name (read_edit edit)) (without_row (edited_name (read_edit edit)) stages.old)) }
    ensures kept { OnOk result (AreKept stages.new graph.new candidates.new) }
    ensures log_unchanged { OnErr result (log.new ≡ log.old) }
    ensures graph_unchanged { OnErr result (graph.new ≡ graph.old) }
    ensures stages_unchanged { OnErr result (stages.new ≡ stages.old) }
    ensures candidates_unchanged { OnErr result (candidates.new ≡ candidates.old) }
{
    let name = edit.name().copy(alloc)?;
    let rest = Candidates::new(alloc, graph.len())?;
    match log.append(alloc, edit) {
        Ok(answer) => {
            graph.remove(&name);
            stages.remove(&name);
            *candidates = rest.first(graph.len());
            fall(stages, graph, candidates, &name);
            Ok(answer)
        }
        Err(fault) => Err(fault),
    }
}

/// Makes an edit in a log that puts a text in place of another one.
fn put_again<A: Drop>(
    alloc: Global,
    log: &mut Log,
    graph: &mut Graph,
    stages: &mut NameTable<Stage<A>>,
    candidates: &mut Candidates,
    dependencies: Names,
    edit: Edit,
) -> Result<Edited, EditFault>
    requires made { (version : ℕ) × (append_answer log.old (read_edit edit) ≡ Made version) }
    requires there { is_some (row_of stages.old (edited_name (read_edit edit))) ≡ true }
    requires sorted { HaveSortedInputs stages.old }
    requires kept { AreKept stages.old graph.old candidates.old }
    ensures answer { IsAnswer result (append_answer log.old (read_edit edit)) }
    ensures log { OnOk result (log.new ≡ appended log.old (read_edit edit)) }
    ensures graph { OnOk result (graph.new ≡ with_row (edited_name (read_edit edit)) dependencies graph.old) }
    ensures stages { OnOk result (stages.new ≡ fallen (edited_name (read_edit edit)) stages.old) }
    ensures kept { OnOk result (AreKept stages.new graph.new candidates.new) }
    ensures log_unchanged { OnErr result (log.new ≡ log.old) }
    ensures graph_unchanged { OnErr result (graph.new ≡ graph.old) }
    ensures stages_unchanged { OnErr result (stages.new ≡ stages.old) }
    ensures candidates_unchanged { OnErr result (candidates.new ≡ candidates.old) }
{
    let name = edit.name().copy(alloc)?;
    let row = Arc::new(alloc, dependencies)?;
    match log.append(alloc, edit) {
        Ok(answer) => {
            graph.replace(&name, row);
            renew(stages, candidates, &name);
            fall(stages, graph, candidates, &name);
            Ok(answer)
        }
        Err(fault) => Err(fault),
    }
}

/// Makes an edit in a log that puts a text under a name that has none. Its module waits then.
fn put_new<A: Drop>(
    alloc: Global,
    log: &mut Log,
    graph: &mut Graph,
    stages: &mut NameTable<Stage<A>>,
    candidates: &mut Candidates,
    dependencies: Names,
    edit: Edit,
) -> Result<Edited, EditFault>
    requires made { (version : ℕ) × (append_answer log.old (read_edit edit) ≡ Made version) }
    requires absent { is_some (row_of stages.old (edited_name (read_edit edit))) ≡ false }
    requires sorted { HaveSortedInputs stages.old }
    requires kept { AreKept stages.old graph.old candidates.old }
    ensures answer { IsAnswer result (append_answer log.old (read_edit edit)) }
    ensures log { OnOk result (log.new ≡ appended log.old (read_edit edit)) }
    ensures graph { OnOk result (graph.new ≡ with_row (edited_name (read_edit edit)) dependencies graph.old) }
    ensures stages { OnOk result (stages.new ≡ fallen (edited_name (read_edit edit)) (with_row (edited_name (read_edit edit)) Waiting stages.old)) }
    ensures kept { OnOk result (AreKept stages.new graph.new candidates.new) }
    ensures log_unchanged { OnErr result (log.new ≡ log.old) }
    ensures graph_unchanged { OnErr result (graph.new ≡ graph.old) }
    ensures stages_unchanged { OnErr result (stages.new ≡ stages.old) }
    ensures candidates_unchanged { OnErr result (candidates.new ≡ candidates.old) }
{
    let name = edit.name().copy(alloc)?;
    let fresh = Candidates::new(alloc, graph.len().saturating_add(1))?;
    add(alloc, graph, stages, &name, dependencies)?;
    match log.append(alloc, edit) {
        Ok(answer) => {
            *candidates = fresh.first(graph.len());
            fall(stages, graph, candidates, &name);
            Ok(answer)
        }
        Err(fault) => {
            graph.remove(&name);
            stages.remove(&name);
            Err(fault)
        }
    }
}

/// Adds a module that waits to both tables, which lack its name. For want of memory nothing changes.
fn add<A: Drop>(
    alloc: Global,
    graph: &mut Graph,
    stages: &mut NameTable<Stage<A>>,
    name: &Name,
    dependencies: Names,
) -> Result<(), Memory>
    requires absent { is_some (row_of stages.old name.now) ≡ false }
    requires names { row_names stages.old ≡ row_names graph.old }
    ensures graph { OnOk result (graph.new ≡ with_row name.now dependencies graph.old) }
    ensures stages { OnOk result (stages.new ≡ with_row name.now Waiting stages.old) }
    ensures graph_unchanged { OnErr result (graph.new ≡ graph.old) }
    ensures stages_unchanged { OnErr result (stages.new ≡ stages.old) }
{
    graph.set(alloc, name.copy(alloc)?, dependencies)?;
    match add_stage(alloc, stages, name) {
        Ok(()) => Ok(()),
        Err(fault) => {
            graph.remove(name);
            Err(fault)
        }
    }
}

/// Has a module wait.
fn add_stage<A: Drop>(
    alloc: Global,
    stages: &mut NameTable<Stage<A>>,
    name: &Name,
) -> Result<(), Memory>
    ensures stages { OnOk result (stages.new ≡ with_row name.now Waiting stages.old) }
    ensures unchanged { OnErr result (stages.new ≡ stages.old) }
{
    match stages.insert(name.copy(alloc)?, Stage::Waiting) {
        Ok(()) => Ok(()),
        Err(_) => Err(Memory),
    }
}

/// Has each module wait whose stage does not stay after an edit of a name: it is a candidate again. The modules are those of the graph.
fn fall<A: Drop>(
    stages: &mut NameTable<Stage<A>>,
    graph: &Graph,
    candidates: &mut Candidates,
    edited: &Name,
)
    requires sorted { HaveSortedInputs stages.old }
    requires kept { AreKept stages.old graph.now candidates.old }
    ensures stages { stages.new ≡ fallen edited.now stages.old }
    ensures kept { AreKept stages.new graph.now candidates.new }
{
    let bit = bit_of(edited);
    for place in 0..graph.len() {
        let (_, stage) = stages.row_at(place);
        if stage.falls(edited, bit) {
            wait_at(stages, candidates, graph.name_at(place), place);
        }
    }
}
