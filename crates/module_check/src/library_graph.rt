//! The graph of a log's library.
ghost use Rattle.std.specs.Prelude.{◌≡◌, true, IfOk, OnOk};
ghost use Rattle.name_meaning.specs.Rows.{with_row};
ghost use Rattle.edit_log_meaning.specs.Log.{is_present, library_of};
ghost use Rattle.text_meaning.specs.Dependencies as meaning;
ghost use Rattle.module_graph_meaning.specs.Graphs.{HoldsDependencies};
ghost use Rattle.module_graph_meaning.specs.Walks.{direct};

use crate::dependencies::dependencies;
use edit_log::Log;
use lf_terms::{Memory, Name};
use module_graph::Graph;
use std::alloc::Global;

/// The modules of a log's library with their direct dependencies, read from their texts.
pub(crate) fn graph_of(alloc: Global, log: &Log) -> Result<Graph, Memory>
    ensures { IfOk result (λ graph. HoldsDependencies graph meaning.dependencies (library_of log.now)) }
{
    let mut graph = Graph::new(alloc);
    // The names come in byte order, so that the next one stands behind those that are there.
    while let Some(name) = log.name_at(graph.len()) {
        add_module(alloc, log, name, &mut graph)?;
    }
    Ok(graph)
}

/// Puts a present name with its direct dependencies.
fn add_module(alloc: Global, log: &Log, name: &Name, graph: &mut Graph) -> Result<(), Memory>
    requires { is_present (library_of log.now) name.now ≡ true }
    ensures { OnOk result (graph.new ≡ with_row name.now (direct meaning.dependencies (library_of log.now) name.now) graph.old) }
{
    let Some(text) = log.text(name) else {
        unreachable!();
    };
    let dependencies = dependencies(alloc, name, text)?;
    graph.set(alloc, name.copy(alloc)?, dependencies)
}
