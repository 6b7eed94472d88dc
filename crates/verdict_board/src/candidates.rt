//! Which modules may be ready: a claim looks at no others.
ghost use Rattle.std.specs.Prelude.{◌≡◌, ◌+◌, ◌<◌, ◌≤◌, ℕ, true, false, List, length, slice_get, is_some, IfOk, MatchBool, MatchOption, Some};
ghost use Rattle.name_meaning.specs.Names.{Name};
ghost use Rattle.name_meaning.specs.Rows.{row_names, row_of, with_row, IsTable};
ghost use Rattle.list_laws.proofs.Members.{Member};
ghost use Rattle.verdict_board.specs.declared.stage.Stage.TheVariants.{Waiting};
ghost use Rattle.verdict_board.specs.Stages.{is_waiting};
ghost use Rattle.verdict_board.specs.PlaceSets.{NoneBefore};
ghost use Rattle.verdict_board.specs.Readiness.{lacks_verdict, IsFirstReady, IsLacking, IsReadyAt, IsUnreadyAt, NoneIsReady, NoneLacks};
ghost use Rattle.verdict_board.specs.Searching.{AreKept, AreNew};

use crate::place_set::PlaceSet;
use crate::stage::Stage;
use lf_terms::{Memory, Name, Names};
use module_graph::Graph;
use name_table::NameTable;
use std::alloc::Global;

/// Modules are given by their places in the table of stages. One that is no candidate is known not to be ready: it does not wait for
/// a claim, or it is parked at one of its direct dependencies, which is present without a standing verdict.
#[derive(Drop)]
pub struct Candidates {
    candidate: PlaceSet,
    /// The modules that are parked at each module.
    parked: Vec<Vec<usize>>,
}

impl Candidates {
    /// So many modules, of which each is a candidate.
    pub fn new(alloc: Global, count: usize) -> Result<Candidates, Memory>
        ensures { IfOk result (λ candidates. AreNew count candidates) }
    {
        let mut parked = Vec::with_capacity(alloc, count)?;
        for _ in 0..count {
            parked.push(Vec::new(alloc))?;
        }
        Ok(Candidates {
            candidate: PlaceSet::all(alloc, count)?,
            parked,
        })
    }

    /// As many of these as so many, of which each is a candidate. It takes no memory.
    pub fn first(mut self, count: usize) -> Candidates
        requires { (more : ℕ) × (count ≤ more) × AreNew more self }
        ensures { AreNew count result }
    {
        self.candidate.truncate(count);
        self.parked.truncate(count);
        self
    }

    /// Whether the module at a place is ready. One that is not is a candidate no longer.
    fn look<A: Drop>(
        &mut self,
        stages: &NameTable<Stage<A>>,
        graph: &Graph,
        place: usize,
    ) -> Result<bool, Memory>
        requires kept { AreKept stages.now graph.now self.old }
        requires within { place < length stages.now }
        ensures kept { AreKept stages.now graph.now self.new }
        ensures ready { IfOk result (λ ready. MatchBool ready (IsReadyAt stages.now graph.now place) (IsUnreadyAt stages.now graph.now place)) }
        ensures left { IfOk result (λ ready. NoneBefore place self.old.candidate → MatchBool ready (NoneBefore place self.new.candidate) (NoneBefore (place + 1) self.new.candidate)) }
    {
        if !self.candidate.contains(place) {
            return Ok(false);
        }
        if !stages.row_at(place).1.is_waiting() {
            self.candidate.remove(place);
            return Ok(false);
        }
        match first_lacking(stages, graph.dependencies_at(place)) {
            Some(other) => {
                self.parked[other].push(place)?;
                self.candidate.remove(place);
                Ok(false)
            }
            None => Ok(true),
        }
    }

    /// Whether the module at a place is a candidate that waits for a claim. One that is not is not ready.
    fn may_be_ready<A: Drop>(&self, stages: &NameTable<Stage<A>>, place: usize) -> bool
        requires kept { (graph : Graph) × AreKept stages.now graph self.now }
        requires within { place < length stages.now }
        ensures { result ≡ false → (graph : Graph) → AreKept stages.now graph self.now → IsUnreadyAt stages.now graph place }
    {
        if !self.candidate.contains(place) {
            return false;
        }
        stages.row_at(place).1.is_waiting()
    }
}

/// Whether some module may be ready. It takes no memory.
pub fn may_be_ready<A: Drop>(stages: &NameTable<Stage<A>>, candidates: &Candidates) -> bool
    requires kept { (graph : Graph) × AreKept stages.now graph candidates.now }
    ensures { result ≡ false → (graph : Graph) → AreKept stages.now graph candidates.now → NoneIsReady stages.now graph }
{
    for place in candidates.candidate.begin()..stages.len() {
        if candidates.may_be_ready(stages, place) {
            return true;
        }
    }
    false
}

/// The place of the first module in byte order that is ready, if one is.
pub fn first_ready<A: Drop>(
    stages: &NameTable<Stage<A>>,
    graph: &Graph,
    candidates: &mut Candidates,
) -> Result<Option<usize>, Memory>
    requires kept { AreKept stages.now graph.now candidates.old }
    ensures kept { AreKept stages.now graph.now candidates.new }
    ensures found { IfOk result (λ found. MatchOption found (NoneIsReady stages.now graph.now) (λ place. IsFirstReady stages.now graph.now place)) }
{
    for place in candidates.candidate.begin()..stages.len() {
        if candidates.look(stages, graph, place)? {
            candidates.candidate.begin_at(place);
            return Ok(Some(place));
        }
    }
    candidates.candidate.begin_at(stages.len());
    Ok(None)
}

/// The place of the first of these names that is present and has no standing verdict, if there is one.
fn first_lacking<A: Drop>(stages: &NameTable<Stage<A>>, names: &Names) -> Option<usize>
    requires { IsTable stages.now }
    ensures { MatchOption result (NoneLacks stages.now names.now) (λ place. IsLacking stages.now names.now place) }
{
    for name in names.as_slice() {
        if let Ok(place) = stages.place(name) {
            if stages.row_at(place).1.standing().is_none() {
                return Some(place);
            }
        }
    }
    None
}

/// Gives a module a standing verdict. The modules that are parked at it are candidates again, and parked no longer.
pub fn stand<A: Drop>(
    stages: &mut NameTable<Stage<A>>,
    candidates: &mut Candidates,
    name: &Name,
    stage: Stage<A>,
)
    requires there { is_some (row_of stages.old name.now) ≡ true }
    requires waits_not { is_waiting stage ≡ false }
    requires stands { lacks_verdict (Some stage) ≡ false }
    requires kept { (graph : Graph) × AreKept stages.old graph candidates.old }
    ensures stages { stages.new ≡ with_row name.now stage stages.old }
    ensures kept { (graph : Graph) → AreKept stages.old graph candidates.old → AreKept stages.new graph candidates.new }
{
    let place = place_of(stages, name);
    stages.replace(name, stage);
    candidates.candidate.insert_all(&candidates.parked[place]);
    candidates.parked[place].clear();
}

/// Has a module wait for a claim. It is a candidate again.
pub fn wait<A: Drop>(stages: &mut NameTable<Stage<A>>, candidates: &mut Candidates, name: &Name)
    requires there { is_some (row_of stages.old name.now) ≡ true }
    requires kept { (graph : Graph) × AreKept stages.old graph candidates.old }
    ensures stages { stages.new ≡ with_row name.now Waiting stages.old }
    ensures kept { (graph : Graph) → AreKept stages.old graph candidates.old → AreKept stages.new graph candidates.new }
{
    let place = place_of(stages, name);
    wait_at(stages, candidates, name, place);
}

/// Has the module at a place wait for a claim. It is a candidate again.
pub fn wait_at<A: Drop>(
    stages: &mut NameTable<Stage<A>>,
    candidates: &mut Candidates,
    name: &Name,
    place: usize,
)
    requires named { slice_get (row_names stages.old) place ≡ Some name.now }
    requires kept { (graph : Graph) × AreKept stages.old graph candidates.old }
    ensures stages { stages.new ≡ with_row name.now Waiting stages.old }
    ensures kept { (graph : Graph) → AreKept stages.old graph candidates.old → AreKept stages.new graph candidates.new }
{
    stages.replace(name, Stage::Waiting);
    candidates.candidate.insert(place);
}

/// Has a module be a candidate whose direct dependencies are others than they were.
pub fn renew<A: Drop>(stages: &NameTable<Stage<A>>, candidates: &mut Candidates, name: &Name)
    requires there { is_some (row_of stages.now name.now) ≡ true }
    requires kept { (graph : Graph) × AreKept stages.now graph candidates.old }
    ensures { (graph : Graph) → AreKept stages.now graph candidates.old → (dependencies : List Name) → AreKept stages.now (with_row name.now dependencies graph) candidates.new }
{
    let place = place_of(stages, name);
    candidates.candidate.insert(place);
}

/// The place of a module that has a stage.
fn place_of<A: Drop>(stages: &NameTable<Stage<A>>, name: &Name) -> usize
    requires { is_some (row_of stages.now name.now) ≡ true }
    ensures named { slice_get (row_names stages.now) result ≡ Some name.now }
    ensures within { result < length stages.now }
{
    match stages.place(name) {
        Ok(place) => place,
        Err(_) => unreachable!(),
    }
}
