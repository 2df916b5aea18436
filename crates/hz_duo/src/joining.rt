//! Two graphs as one.

ghost use Rattle.std.specs.Prelude.{◌≡◌, ◌<◌, ◌≤◌, ◌+◌, ◌++◌, length, map, All, IfOk};
ghost use Rattle.hz_block_model.specs.Running.Limits.{instruction_limit};
ghost use Rattle.hz_depend.specs.GraphShape.{edge_of};
ghost use Rattle.hz_sched.specs.Shape.{graph_of};
ghost use Rattle.hz_measure_model.specs.TwoContexts.Joining as model;

use hz_depend::{Edge, Graph, GraphInsn};
use hz_regexp::NoMemory;
use std::alloc::Global;

/// An edge between places that are so many higher.
fn raised(edge: Edge, by: u32) -> Edge
    requires by { by ≤ instruction_limit }
    requires from { edge.from < instruction_limit }
    requires to { edge.to < instruction_limit }
    ensures { edge_of result ≡ model.raised by (edge_of edge) }
{
    Edge {
        from: by + edge.from,
        to: by + edge.to,
        cost: edge.cost,
    }
}

/// The instructions of both.
fn insns_of(
    alloc: Global,
    first: &[GraphInsn],
    second: &[GraphInsn],
) -> Result<Vec<GraphInsn>, NoMemory>
    ensures { IfOk result (λ insns. insns.items ≡ first.now ++ second.now) }
{
    let mut insns = Vec::from_slice(alloc, first)?;
    insns.extend_from_slice(second)?;
    Ok(insns)
}

/// The edges of both, those of the second so many places higher.
fn edges_of(alloc: Global, first: &[Edge], second: &[Edge], by: u32) -> Result<Vec<Edge>, NoMemory>
    requires by { by ≤ instruction_limit }
    requires places { All (λ e. (e.from < instruction_limit) × (e.to < instruction_limit)) second.now }
    ensures { IfOk result (λ edges. map edge_of edges.items ≡ map edge_of first.now ++ map (model.raised by) (map edge_of second.now)) }
{
    let mut edges = Vec::from_slice(alloc, first)?;
    for edge in second {
        edges.push(raised(*edge, by))?;
    }
    Ok(edges)
}

/// Two graphs as one: the instructions of the first, then those of the second, and the edges of each. No edge leads from one to the
/// other. docs/RULES.md, 'Two contexts'.
pub fn join(alloc: Global, first: &Graph, second: &Graph) -> Result<Graph, NoMemory>
    requires few { length first.now.insns.items + length second.now.insns.items ≤ instruction_limit }
    requires first { All (λ e. (e.from < length first.now.insns.items) × (e.to < length first.now.insns.items)) first.now.edges.items }
    requires second { All (λ e. (e.from < length second.now.insns.items) × (e.to < length second.now.insns.items)) second.now.edges.items }
    ensures insns { IfOk result (λ made. made.insns.items ≡ first.now.insns.items ++ second.now.insns.items) }
    ensures joined { IfOk result (λ made. graph_of made ≡ model.joined (graph_of first.now) (graph_of second.now)) }
{
    let insns = insns_of(alloc, &first.insns, &second.insns)?;
    let count = first.insns.len() as u32;
    let edges = edges_of(alloc, &first.edges, &second.edges, count)?;
    Ok(Graph { insns, edges })
}
