//! Which names of a graph are grounded. A name is taken off the graph once all its present dependencies are; what is left at the
//! end lies on a cycle or reaches one.
ghost use Rattle.std.specs.Prelude.{◌≡◌, ◌∷◌, ◌≤◌, [], ℕ, List, length, IfOk, OnOk, MatchOption};
ghost use Rattle.module_graph_meaning.specs.Graphs.{graph_grounded};
ghost use Rattle.name_meaning.specs.Rows.{IsTable};
ghost use Rattle.module_graph.specs.Peeling.{IsOpenAt, AllPassed, TellsGrounded};
ghost use Rattle.module_graph.specs.PeelingState.{IsState, IsStateWith, places, work};

use crate::Graph;
use lf_terms::{Memory, Name, Names};
use std::alloc::Global;
use std::mem;

/// The names of the graph at which no walk begins that has more names than the graph, in byte order. Time grows with the names
/// and dependencies of the graph.
pub fn grounded(alloc: Global, graph: &Graph) -> Result<Names, Memory>
    ensures { IfOk result (λ names. names ≡ graph_grounded graph.now) }
{
    let taken = peel(alloc, graph)?;
    let mut names = Vec::new(alloc);
    for place in 0..graph.len() {
        if taken[place] {
            names.push(graph.name_at(place).copy(alloc)?)?;
        }
    }
    Ok(Names::from_vec(names))
}

/// Of each name, whether it is taken off in the end.
fn peel(alloc: Global, graph: &Graph) -> Result<Vec<bool>, Memory>
    ensures { IfOk result (λ taken. TellsGrounded graph.now taken.items) }
{
    let mut peeling = Peeling::new(alloc, graph)?;
    for place in 0..graph.len() {
        peeling.look(graph, place)?;
    }
    while let Some(place) = peeling.ready.pop() {
        peeling.wake(alloc, graph, place)?;
    }
    Ok(peeling.taken)
}

/// Names are given by their places in the graph. A name that is not taken off waits for one of its dependencies.
#[derive(Drop)]
struct Peeling {
    /// Whether each name is taken off.
    taken: Vec<bool>,
    /// The names that wait for each name.
    waiting: Vec<Vec<usize>>,
    /// How many dependencies of each name, from the first on, are known to be absent or taken off.
    seen: Vec<usize>,
    /// Names that are taken off, and those that wait for them have not been looked at since.
    ready: Vec<usize>,
}

impl Peeling {
    /// No name is taken off, and all are to be looked at.
    fn new(alloc: Global, graph: &Graph) -> Result<Peeling, Memory>
        ensures { IfOk result (λ state. IsState graph.now state (places 0 (length graph.now))) }
    {
        let count = graph.len();
        let mut waiting = Vec::new(alloc);
        for _ in 0..count {
            waiting.push(Vec::new(alloc))?;
        }
        Ok(Peeling {
            taken: vec![in alloc; false; count]?,
            waiting,
            seen: vec![in alloc; 0; count]?,
            ready: Vec::new(alloc),
        })
    }

    /// Looks at a name: it waits for one of its dependencies, or is taken off where none is open.
    fn look(&mut self, graph: &Graph, place: usize) -> Result<(), Memory>
        requires { (pending : List ℕ) × IsState graph.now self.old (place ∷ pending) }
        ensures state { OnOk result ((pending : List ℕ) → IsState graph.now self.old (place ∷ pending) → IsState graph.now self.new pending) }
        ensures work { OnOk result (work self.new ≤ work self.old) }
    {
        if self.taken[place] {
            return Ok(());
        }
        let dependencies = graph.dependencies_at(place).as_slice();
        match next_open(graph, &self.taken, dependencies, self.seen[place]) {
            Some((at, other)) => {
                self.seen[place] = at;
                self.waiting[other].push(place)?;
            }
            None => {
                self.taken[place] = true;
                self.ready.push(place)?;
            }
        }
        Ok(())
    }

    /// Looks at the names that wait for a name which is taken off.
    fn wake(&mut self, alloc: Global, graph: &Graph, place: usize) -> Result<(), Memory>
        requires { IsStateWith graph.now self.old place }
        ensures state { OnOk result (IsState graph.now self.new []) }
        ensures work { OnOk result (work self.new ≤ work self.old) }
    {
        let woken = mem::replace(&mut self.waiting[place], Vec::new(alloc));
        for own in &woken {
            self.look(graph, *own)?;
        }
        Ok(())
    }
}

/// The first of the dependencies, from a place on, that is present and not taken off: its place among them, and in the graph.
fn next_open(
    graph: &Graph,
    taken: &[bool],
    dependencies: &[Name],
    from: usize,
) -> Option<(usize, usize)>
    requires table { IsTable graph.now }
    requires each { length taken.now ≡ length graph.now }
    ensures { MatchOption result (AllPassed graph.now taken.now dependencies.now from) (λ found. IsOpenAt graph.now taken.now dependencies.now from found.0 found.1) }
{
    for at in from..dependencies.len() {
        if let Ok(other) = graph.place(&dependencies[at]) {
            if !taken[other] {
                return Some((at, other));
            }
        }
    }
    None
}
