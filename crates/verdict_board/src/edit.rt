//! Edits of the library.
ghost use Rattle.std.specs.Prelude.{◌≡◌, ◌≤◌, ◌∷◌, ◌++◌, [], not, true, false, length, filter, IfOk, IfSome, OnErr, OnOk};
ghost use Rattle.std.specs.Option.{option_copied};
ghost use Rattle.name_meaning.specs.Names.{Name, is_among, is_ascending};
ghost use Rattle.name_meaning.specs.Limits.{text_limit};
ghost use Rattle.name_meaning.specs.Rows.{row_names};
ghost use Rattle.edit_log_meaning.specs.Log.{edited, text_of};
ghost use Rattle.edit_log_meaning.specs.Append.{is_short};
ghost use Rattle.edit_log_laws.specs.LogLaws.{left_by};
ghost use Rattle.list_laws.proofs.Members.{Member};
ghost use Rattle.module_graph_meaning.specs.Graphs.{HoldsDependencies};
ghost use Rattle.module_graph_meaning.specs.Reach.{reach};
ghost use Rattle.module_graph_meaning.specs.Walks.{is_grounded, is_ungrounded, ungrounded_names};
ghost use Rattle.board_meaning.specs.Events.{library_after};
ghost use Rattle.board_meaning.specs.Machine.{edit_reply, EditCall, after_call};
ghost use Rattle.edit_log.specs.Readings.{read_edit, IsAnswer};
ghost use Rattle.verdict_board.specs.Entries.{entry, read_event};
ghost use Rattle.verdict_board.specs.ReadBefore.{AreReadBefore};
ghost use Rattle.verdict_board.specs.Stages.{IsStage, AreStages, after_edit_of};
ghost use Rattle.verdict_board.specs.Tables.{AreDependencies, IsChange};
ghost use Rattle.board_meaning.specs.Events as board;

use crate::change::{Change, make_edit};
use crate::claim::MOST;
use crate::marked_names::bit_of;
use crate::search::contains;
use crate::stage::{Stage, after_edit};
use crate::trail::{Trail, noted};
use crate::{Board, Event};
use edit_log::{Edit, EditFault, Edited};
use lf_terms::{Memory, Name, Names};
use module_graph::{Graph, Subject, any_reaches, grounded};
use name_table::NameTable;
use std::alloc::Global;

/// What is made beside what there is, before an edit changes it.
#[derive(Drop)]
struct Next<A> {
    change: Change<A>,
    history: Trail,
}

impl<S: Subject> Board<S> {
    /// Makes an edit, unless one of the log's tests holds; see `Log::append`. Want of memory may come in place of `Made` alone. At
    /// `Made` just those verdicts stand that stood and whose inputs lack the edited name, and the answers of the ungrounded
    /// modules are there; else nothing has changed.
    pub fn edit(&mut self, alloc: Global, pass: u32, edit: Edit) -> Result<Edited, EditFault>
        requires { pass ≡ 0 }
        ensures answer { IsAnswer result (edit_reply self.old (read_edit edit)) }
        ensures history { OnOk result (self.new ≡ after_call S.subject.dependencies self.old pass (EditCall (read_edit edit))) }
        ensures unchanged { OnErr result (self.new ≡ self.old) }
    {
        self.edit_read_before(alloc, pass, edit, None)
    }

    /// The same, where the dependencies of the text that is put may have been read before: to read them takes as long as the text is,
    /// and whoever shares the board with others keeps it meanwhile. None: they are read here, if the edit is made.
    pub fn edit_read_before(
        &mut self,
        alloc: Global,
        pass: u32,
        edit: Edit,
        known: Option<Names>,
    ) -> Result<Edited, EditFault>
        requires front { pass ≡ 0 }
        requires known { AreReadBefore S.subject.dependencies (read_edit edit) known }
        ensures answer { IsAnswer result (edit_reply self.old (read_edit edit)) }
        ensures history { OnOk result (self.new ≡ after_call S.subject.dependencies self.old pass (EditCall (read_edit edit))) }
        ensures unchanged { OnErr result (self.new ≡ self.old) }
    {
        let answer = self.log.answer(&edit)?;
        let Edited::Made(version) = answer else {
            return Ok(answer);
        };
        if self.entries >= MOST || self.opened >= MOST {
            return Err(EditFault::Memory);
        }
        let next = self.next(alloc, pass, version, &edit, known)?;
        let how = next.change;
        let rings = how.rings();
        match make_edit(
            alloc,
            &mut self.log,
            &mut self.graph,
            &mut self.stages,
            &mut self.candidates,
            how,
            edit,
        ) {
            Ok(_) => {}
            Err(fault) => return Err(fault),
        }
        self.rings = rings;
        self.history = next.history;
        self.entries += 1;
        Ok(answer)
    }

    /// What is made beside what there is for an edit that becomes this version.
    fn next(
        &self,
        alloc: Global,
        pass: u32,
        version: u32,
        edit: &Edit,
        known: Option<Names>,
    ) -> Result<Next<S::Answer>, Memory>
        requires short { is_short (read_edit edit.now) ≡ true }
        requires known { AreReadBefore S.subject.dependencies (read_edit edit.now) known }
        ensures change { IfOk result (λ next. IsChange S.subject S.meaning self.now (read_edit edit.now) next.change) }
        ensures history { IfOk result (λ next. next.history.entries ≡ self.now ++ entry pass version (board.EditMade (read_edit edit.now)) ∷ []) }
    {
        let dependencies = self.dependencies_put(alloc, edit, known)?;
        let history = noted_edit(&self.history, alloc, pass, version, edit)?;
        let change = self.change(alloc, edit, dependencies)?;
        Ok(Next { change, history })
    }

    /// The dependencies of the text that an edit puts, which may be known; none where it drops a module.
    fn dependencies_put(
        &self,
        alloc: Global,
        edit: &Edit,
        known: Option<Names>,
    ) -> Result<Names, Memory>
        requires short { is_short (read_edit edit.now) ≡ true }
        requires known { AreReadBefore S.subject.dependencies (read_edit edit.now) known }
        ensures { IfOk result (λ names. AreDependencies S.subject.dependencies (read_edit edit.now) names) }
    {
        match edit {
            Edit::Put { name, text } => {
                self.dependencies(alloc, name, text.get().as_slice(), known)
            }
            Edit::Drop { .. } => Ok(Names::from_vec(Vec::new(alloc))),
        }
    }

    /// What an edit does to the tables, where these are the dependencies of the text that it puts.
    fn change(
        &self,
        alloc: Global,
        edit: &Edit,
        dependencies: Names,
    ) -> Result<Change<S::Answer>, Memory>
        requires short { is_short (read_edit edit.now) ≡ true }
        requires dependencies { AreDependencies S.subject.dependencies (read_edit edit.now) dependencies }
        ensures { IfOk result (λ change. IsChange S.subject S.meaning self.now (read_edit edit.now) change) }
    {
        let may_have = self.may_have_ring(alloc, edit, &dependencies)?;
        if !may_have {
            return Ok(Change::InPlace { dependencies });
        }
        let graph = self.graph_after(alloc, edit, dependencies)?;
        let bad = self.ungrounded_after(alloc, edit, &graph)?;
        let stages = self.stages_after(alloc, edit, &graph, &bad)?;
        let rings = bad.len() > 0;
        Ok(Change::Anew {
            graph,
            stages,
            rings,
        })
    }

    /// The dependencies of the modules after an edit, where these are the dependencies of the text that it puts.
    fn graph_after(&self, alloc: Global, edit: &Edit, dependencies: Names) -> Result<Graph, Memory>
        requires dependencies { AreDependencies S.subject.dependencies (read_edit edit.now) dependencies }
        ensures { IfOk result (λ graph. HoldsDependencies graph S.subject.dependencies (edited (library_after self.now) (read_edit edit.now))) }
    {
        let mut graph = self.graph.copy(alloc)?;
        match edit {
            Edit::Put { name, .. } => graph.set(alloc, name.copy(alloc)?, dependencies)?,
            Edit::Drop { name } => {
                graph.remove(name);
            }
        }
        Ok(graph)
    }

    /// The dependencies of a text, which may be known.
    fn dependencies(
        &self,
        alloc: Global,
        name: &Name,
        text: &[u8],
        known: Option<Names>,
    ) -> Result<Names, Memory>
        requires short { length text.now ≤ text_limit }
        requires known { IfSome known (λ names. names ≡ S.subject.dependencies name.now text.now) }
        ensures { IfOk result (λ names. names ≡ S.subject.dependencies name.now text.now) }
    {
        match known {
            Some(names) => Ok(names),
            None => self.subject.deps(alloc, name, text),
        }
    }

    /// The names that are ungrounded after an edit that leaves this graph.
    fn ungrounded_after(&self, alloc: Global, edit: &Edit, graph: &Graph) -> Result<Names, Memory>
        requires { HoldsDependencies graph.now S.subject.dependencies (edited (library_after self.now) (read_edit edit.now)) }
        ensures { IfOk result (λ bad. bad ≡ ungrounded_names S.subject.dependencies (library_after (after_edit_of self.now (read_edit edit.now)))) }
    {
        let known = grounded(alloc, graph)?;
        others(alloc, graph, &known)
    }

    /// How each module stands after an edit that leaves this graph with these ungrounded names, made anew beside what there is.
    fn stages_after(
        &self,
        alloc: Global,
        edit: &Edit,
        graph: &Graph,
        bad: &Names,
    ) -> Result<NameTable<Stage<S::Answer>>, Memory>
        requires short { is_short (read_edit edit.now) ≡ true }
        requires holds { HoldsDependencies graph.now S.subject.dependencies (edited (library_after self.now) (read_edit edit.now)) }
        requires others { bad.now ≡ ungrounded_names S.subject.dependencies (library_after (after_edit_of self.now (read_edit edit.now))) }
        ensures { IfOk result (λ stages. AreStages S.subject S.meaning (after_edit_of self.now (read_edit edit.now)) stages) }
    {
        let mut stages = NameTable::new(alloc);
        for place in 0..graph.len() {
            let name = graph.name_at(place);
            let stage = if contains(bad, name) {
                self.ring_stage(alloc, name, edit, bad)?
            } else {
                self.grounded_stage(name, edit)?
            };
            match stages.push(name.copy(alloc)?, stage) {
                Ok(()) => {}
                Err(_) => return Err(Memory),
            }
        }
        Ok(stages)
    }

    /// Whether a module may be ungrounded after an edit, where these are the dependencies of the text that it puts: one was before, or
    /// one of these reaches the edited module.
    fn may_have_ring(
        &self,
        alloc: Global,
        edit: &Edit,
        dependencies: &Names,
    ) -> Result<bool, Memory>
        requires { AreDependencies S.subject.dependencies (read_edit edit.now) dependencies.now }
        ensures { IfOk result (λ may. may ≡ false → (name : Name) → is_ungrounded S.subject.dependencies (edited (library_after self.now) (read_edit edit.now)) name ≡ false) }
    {
        if self.rings {
            return Ok(true);
        }
        match edit {
            Edit::Put { name, .. } => self.may_reach(alloc, dependencies, name),
            Edit::Drop { .. } => Ok(false),
        }
    }

    /// Whether one of these names reaches a name, or may. It is told by what is kept with their verdicts, and where one of them has none by
    /// a walk over the graph.
    fn may_reach(&self, alloc: Global, names: &Names, name: &Name) -> Result<bool, Memory>
        ensures { IfOk result (λ may. may ≡ false → (from : Name) → Member from names.now → is_among (reach S.subject.dependencies (library_after self.now) from) name.now ≡ false) }
    {
        let bit = bit_of(name);
        for from in names.as_slice() {
            let Some(found) = self.reaches(from, name, bit) else {
                return any_reaches(alloc, &self.graph, names, name);
            };
            if found {
                return Ok(true);
            }
        }
        Ok(false)
    }

    /// How a module stands after an edit, where it is grounded then.
    fn grounded_stage(&self, name: &Name, edit: &Edit) -> Result<Stage<S::Answer>, Memory>
        requires { is_grounded S.subject.dependencies (library_after (after_edit_of self.now (read_edit edit.now))) name.now ≡ true }
        ensures { IfOk result (λ stage. IsStage S.subject S.meaning (after_edit_of self.now (read_edit edit.now)) name.now stage) }
    {
        match self.stages.get(name) {
            Some(stage) => after_edit::<S>(stage, edit.name()),
            None => Ok(Stage::Waiting),
        }
    }

    /// How a module stands after an edit, where it is ungrounded then, and these are the ungrounded names.
    fn ring_stage(
        &self,
        alloc: Global,
        name: &Name,
        edit: &Edit,
        bad: &Names,
    ) -> Result<Stage<S::Answer>, Memory>
        requires short { is_short (read_edit edit.now) ≡ true }
        requires ungrounded { is_ungrounded S.subject.dependencies (library_after (after_edit_of self.now (read_edit edit.now))) name.now ≡ true }
        requires others { bad.now ≡ ungrounded_names S.subject.dependencies (library_after (after_edit_of self.now (read_edit edit.now))) }
        ensures { IfOk result (λ stage. IsStage S.subject S.meaning (after_edit_of self.now (read_edit edit.now)) name.now stage) }
    {
        let Some(text) = self.text_after(name, edit) else {
            unreachable!();
        };
        let answer = self.subject.cyclic(alloc, name, text, bad)?;
        Ok(Stage::Cyclic { answer })
    }

    /// The text of a name after an edit, if it is present then.
    fn text_after<'a>(&'a self, name: &Name, edit: &'a Edit) -> Option<&'a [u8]>
        requires { is_short (read_edit edit.now) ≡ true }
        ensures text { option_copied result ≡ text_of (edited (library_after self.now) (read_edit edit.now)) name.now }
        ensures short { IfSome result (λ text. length text.now ≤ text_limit) }
    {
        if name == edit.name() {
            return put_text(edit);
        }
        self.log.text(name)
    }
}

/// The text that an edit puts, if it puts one.
fn put_text(edit: &Edit) -> Option<&[u8]>
    requires { is_short (read_edit edit.now) ≡ true }
    ensures text { option_copied result ≡ left_by (read_edit edit.now) }
    ensures short { IfSome result (λ text. length text.now ≤ text_limit) }
{
    match edit {
        Edit::Put { text, .. } => Some(text.get().as_slice()),
        Edit::Drop { .. } => None,
    }
}

/// The names of a graph that are not among these.
fn others(alloc: Global, graph: &Graph, known: &Names) -> Result<Names, Memory>
    requires { is_ascending known.now ≡ true }
    ensures { IfOk result (λ names. names ≡ filter (λ n. not (is_among known.now n)) (row_names graph.now)) }
{
    let mut names = Vec::new(alloc);
    for place in 0..graph.len() {
        let name = graph.name_at(place);
        if contains(known, name) {
            continue;
        }
        names.push(name.copy(alloc)?)?;
    }
    Ok(Names::from_vec(names))
}

/// A history with the entry of this edit, made by this pass.
fn noted_edit(
    history: &Trail,
    alloc: Global,
    pass: u32,
    version: u32,
    edit: &Edit,
) -> Result<Trail, Memory>
    ensures { IfOk result (λ trail. trail.entries ≡ history.now.entries ++ entry pass version (board.EditMade (read_edit edit.now)) ∷ []) }
{
    let event = event_of(alloc, edit)?;
    Ok(noted(history, pass, version, event))
}

/// What happens where this edit is made.
fn event_of(alloc: Global, edit: &Edit) -> Result<Event, Memory>
    ensures { IfOk result (λ event. read_event event ≡ board.EditMade (read_edit edit.now)) }
{
    match edit {
        Edit::Put { name, text } => Ok(Event::Put {
            name: name.copy(alloc)?,
            text: text.share()?,
        }),
        Edit::Drop { name } => Ok(Event::Drop(name.copy(alloc)?)),
    }
}
