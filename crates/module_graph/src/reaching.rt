//! What names reach in a graph.
ghost use Rattle.std.specs.Prelude.{◌≡◌, IfOk, OnOk, slice_get};
ghost use Rattle.std.specs.List.{list_any};
ghost use Rattle.std.specs.Option.{option_copied, option_and_then};
ghost use Rattle.indexmap.specs.IndexSet.{IsUnique, insert_all};
ghost use Rattle.name_meaning.specs.Names.{is_among, same_name};
ghost use Rattle.name_meaning.specs.Rows.{row_of};
ghost use Rattle.module_graph_meaning.specs.Graphs.{graph_reach};
ghost use Rattle.module_graph.specs.Reaching.{IsReachOf};

use crate::Graph;
use indexmap::IndexSet;
use lf_terms::{Memory, Name, Names};
use std::alloc::Global;

/// The name and all names on walks from it, present or not, in byte order. Time grows with what is reached.
pub fn reach(alloc: Global, graph: &Graph, name: &Name) -> Result<Names, Memory>
    ensures { IfOk result (λ names. names ≡ graph_reach graph.now name.now) }
{
    let mut reached = IndexSet::new(alloc);
    reached.insert(name.copy(alloc)?)?;
    widen(alloc, graph, &mut reached)?;
    reached.sort_unstable()?;
    let names = reached.into_iter().collect(alloc)?;
    Ok(Names::from_vec(names))
}

/// Whether one of these names reaches a name. Time grows with what is reached.
pub fn any_reaches(alloc: Global, graph: &Graph, names: &Names, name: &Name) -> Result<bool, Memory>
    ensures { IfOk result (λ found. found ≡ list_any (λ from. is_among (graph_reach graph.now from) name.now) names.now) }
{
    let mut reached = IndexSet::new(alloc);
    reach_all(alloc, &mut reached, names.as_slice())?;
    widen(alloc, graph, &mut reached)?;
    Ok(reached.contains(name))
}

/// Adds all that these names reach.
fn widen(alloc: Global, graph: &Graph, reached: &mut IndexSet<Name>) -> Result<(), Memory>
    requires { IsUnique same_name reached.old }
    ensures reached { OnOk result (IsReachOf graph.now reached.old.keys reached.new.keys) }
    ensures unique { OnOk result (IsUnique same_name reached.new) }
{
    let mut next = 0;
    while next < reached.len() {
        let row = dependencies_at(graph, reached, next);
        next += 1;
        if let Some(dependencies) = row {
            reach_all(alloc, reached, dependencies.as_slice())?;
        }
    }
    Ok(())
}

/// The direct dependencies of the name at a place. None where there is no such place, and where the graph lacks the name.
fn dependencies_at<'a>(
    graph: &'a Graph,
    reached: &IndexSet<Name>,
    place: usize,
) -> Option<&'a Names>
    ensures { option_copied result ≡ option_and_then (row_of graph.now) (slice_get reached.now.keys place) }
{
    match reached.get_index(place) {
        Some(own) => graph.row(own),
        None => None,
    }
}

/// Adds the names that are not reached yet, at the end.
fn reach_all(alloc: Global, reached: &mut IndexSet<Name>, names: &[Name]) -> Result<(), Memory>
    requires { IsUnique same_name reached.old }
    ensures added { OnOk result (reached.new.keys ≡ insert_all same_name reached.old.keys names.now) }
    ensures unique { OnOk result (IsUnique same_name reached.new) }
{
    for name in names {
        reached.insert(name.copy(alloc)?)?;
    }
    Ok(())
}
