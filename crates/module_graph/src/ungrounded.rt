//! The first ungrounded name of a list.
ghost use Rattle.std.specs.Prelude.{◌≡◌, position};
ghost use Rattle.module_graph_meaning.specs.Graphs.{is_graph_ungrounded, graph_grounded};

use crate::Graph;
use lf_terms::{Name, Names};

/// The place of the first name of `deps` that is present in the graph and ungrounded, where the graph's grounded names are
/// given. None exactly where there is none. It takes no memory.
pub fn first_ungrounded(grounded: &Names, graph: &Graph, deps: &Names) -> Option<usize>
    requires { grounded.now ≡ graph_grounded graph.now }
    ensures { result ≡ position (is_graph_ungrounded graph.now) deps.now }
{
    for (place, name) in deps.as_slice().iter().enumerate() {
        if is_ungrounded(grounded, graph, name) {
            return Some(place);
        }
    }
    None
}

/// Whether a name is present in the graph and ungrounded.
fn is_ungrounded(grounded: &Names, graph: &Graph, name: &Name) -> bool
    requires { grounded.now ≡ graph_grounded graph.now }
    ensures { result ≡ is_graph_ungrounded graph.now name.now }
{
    graph.row(name).is_some() && grounded.as_slice().binary_search(name).is_err()
}
