//! The graphs of a program, by what its pointers may name and what its functions may read and write.

ghost use Rattle.std.specs.Prelude.{◌≡◌, IfOk};
ghost use Rattle.path_laws.specs.Graph.{IsWhole};
ghost use Rattle.flow_graph.specs.Made.{graphs_in, effects_in};
ghost use Rattle.flow_graph.specs.Run.{graphs_of};
ghost use Rattle.flow_graph.specs.MainGraph.{IsMainGraph};

use access_summary::find_summaries;
use alias_sets::find_points;
use c_tree::Checked;
use ckpt_base::NoMemory;
use flow_graph::{Graphs, graph};
use std::alloc::Global;

/// The graphs of a program. The one refusal is that no memory is found.
pub fn make_graphs(alloc: Global, program: &Checked) -> Result<Graphs, NoMemory>
    ensures graphs { IfOk result (λ g. graphs_in g ≡ graphs_of program.now) }
    ensures main { IfOk result (λ g. IsMainGraph program.now (effects_in g)) }
    ensures whole { IfOk result (λ g. IsWhole (effects_in g)) }
{
    let points = find_points(alloc, program)?;
    let summaries = find_summaries(alloc, program, &points)?;
    graph(alloc, program, &points, &summaries)
}
