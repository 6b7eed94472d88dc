//! The order in which grounded modules are judged.
ghost use Rattle.std.specs.Prelude.{◌≡◌, length, map, IfOk, IsPermutation};
ghost use Rattle.module_graph_meaning.specs.Graphs.{graph_reach};
ghost use Rattle.module_check.specs.JudgingOrders.{RisesInReach};

use lf_terms::{Memory, Name, Names};
use module_graph::{Graph, reach};
use std::alloc::Global;

/// The names, those first that reach fewer names. A grounded name reaches more names than each of the others that it reaches.
pub(crate) fn by_reach(alloc: Global, graph: &Graph, names: &Names) -> Result<Names, Memory>
    ensures same { IfOk result (λ order. IsPermutation names.now order) }
    ensures rises { IfOk result (λ order. RisesInReach graph.now order) }
{
    let mut counted = counted(alloc, graph, names.as_slice())?;
    counted.sort_unstable();
    uncounted(alloc, counted.as_slice())
}

/// Each name behind the number of names that it reaches.
fn counted(alloc: Global, graph: &Graph, names: &[Name]) -> Result<Vec<(usize, Name)>, Memory>
    ensures { IfOk result (λ counted. counted.items ≡ map (λ name. (length (graph_reach graph.now name), name)) names.now) }
{
    let mut counted = Vec::with_capacity(alloc, names.len())?;
    for name in names {
        let count = reach(alloc, graph, name)?.len();
        counted.push((count, name.copy(alloc)?))?;
    }
    Ok(counted)
}

/// The names without the numbers.
fn uncounted(alloc: Global, counted: &[(usize, Name)]) -> Result<Names, Memory>
    ensures { IfOk result (λ names. names ≡ map (λ item. item.1) counted.now) }
{
    let mut names = Vec::with_capacity(alloc, counted.len())?;
    for (_, name) in counted {
        names.push(name.copy(alloc)?)?;
    }
    Ok(Names::from_vec(names))
}
