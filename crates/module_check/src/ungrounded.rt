//! The ungrounded names of a graph.
ghost use Rattle.std.specs.Prelude.{◌≡◌, not, true, filter, IfOk};
ghost use Rattle.name_meaning.specs.Names.{is_among, is_ascending};
ghost use Rattle.name_meaning.specs.Rows.{row_names};

use crate::search::contains;
use lf_terms::{Memory, Names};
use module_graph::Graph;
use std::alloc::Global;

/// The names of a graph that are not among these, which stand in byte order.
pub(crate) fn others(alloc: Global, graph: &Graph, names: &Names) -> Result<Names, Memory>
    requires { is_ascending names.now ≡ true }
    ensures { IfOk result (λ others. others ≡ filter (λ n. not (is_among names.now n)) (row_names graph.now)) }
{
    let mut others = Vec::new(alloc);
    for place in 0..graph.len() {
        let name = graph.name_at(place);
        if contains(names, name) {
            continue;
        }
        others.push(name.copy(alloc)?)?;
    }
    Ok(Names::from_vec(others))
}
