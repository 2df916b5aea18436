//! Heights: how many cycles there are at least from an instruction to the end of the block.

ghost use Rattle.std.specs.Prelude.{◌≡◌, ◌≤◌, ◌<◌, length, map, All, IfOk};
ghost use Rattle.std.specs.List.{AllPairs};
ghost use Rattle.hz_description_model.specs.Reading.Limits.{latency_limit};
ghost use Rattle.hz_depend.specs.GraphShape.{edge_of};
ghost use Rattle.hz_depend.specs.Relaxing.{height_at, relaxed};
ghost use Rattle.hz_block_model.specs.Running.Limits.{instruction_limit};

use crate::nodes::Node;
use crate::parts::Edge;
use hz_regexp::NoMemory;
use std::alloc::Global;

/// The height of an instruction by the edges so far: the greatest sum of the edges that lead from it, else its latency.
pub fn height_at(nodes: &[Node<'_>], sums: &[Option<u32>], place: usize) -> u32
    requires nodes { place < length nodes.now }
    requires sums { place < length sums.now }
    ensures { result ≡ height_at (map (λ n. n.latency) nodes.now) sums.now place }
{
    sums[place].unwrap_or(nodes[place].latency)
}

/// For each instruction the greatest sum of the cost of an edge that leads from it and the height where that leads, if one
/// leads from it. No edge leads from a place at or after one to which a later edge leads.
pub fn sums_of(
    alloc: Global,
    nodes: &[Node<'_>],
    edges: &[Edge],
) -> Result<Vec<Option<u32>>, NoMemory>
    requires few { length nodes.now ≤ instruction_limit }
    requires latencies { All (λ n. n.latency ≤ latency_limit) nodes.now }
    requires edges { All (λ e. (e.from < e.to) × (e.to < length nodes.now) × (e.cost ≤ latency_limit)) edges.now }
    requires ordered { AllPairs (λ a b. a.from < b.to) edges.now }
    ensures { IfOk result (λ sums. sums.items ≡ relaxed (map (λ n. n.latency) nodes.now) (map edge_of edges.now)) }
{
    let mut sums = vec![in alloc; None; nodes.len()]?;
    for k in (0..edges.len()).rev() {
        let edge = edges[k];
        let sum = edge.cost + height_at(nodes, &sums, edge.to as usize);
        let from = edge.from as usize;
        sums[from] = Some(sums[from].unwrap_or(0).max(sum));
    }
    Ok(sums)
}
