//! The bound of a graph.

ghost use Rattle.std.specs.Prelude.{◌≤◌, ◌<◌, length, map, All, IfOk};
ghost use Rattle.hz_description_model.specs.Reading.Limits.{latency_limit};
ghost use Rattle.hz_block_model.specs.Running.Limits.{instruction_limit};
ghost use Rattle.hz_depend.specs.GraphShape.{IsSchedulable};
ghost use Rattle.hz_sched.specs.Shape.{graph_of};
ghost use Rattle.hz_measure_model.specs.Bounds.Bounds.{IsBoundBy};
ghost use Rattle.hz_measure_model.specs.Bounds.Loads.{ways_by};
ghost use Rattle.hz_bound.specs.Rows.{IsPathOf};
ghost use Rattle.hz_bound.specs.Shape.{names_of, lists_in, bound_of, IsInRange};

use crate::chain::{chain_of, greatest_of};
use crate::heaviest::{heaviest_of, value_of};
use crate::parts::Bound;
use crate::rows::outgoing;
use crate::tails::tails_of;
use hz_checked::Checked;
use hz_depend::Graph;
use hz_regexp::NoMemory;
use std::alloc::Global;

/// The greatest tail of a graph, and its chain.
#[derive(Drop)]
struct Path {
    cycles: u32,
    chain: Vec<u32>,
}

/// The greatest tail of a graph whose edges lead upwards, and its chain.
fn path_of(alloc: Global, graph: &Graph) -> Result<Path, NoMemory>
    requires few { length graph.now.insns.items ≤ instruction_limit }
    requires edges { All (λ e. (e.from < e.to) × (e.to < length graph.now.insns.items) × (e.cost ≤ latency_limit)) graph.now.edges.items }
    ensures { IfOk result (λ path. IsPathOf (graph_of graph.now) path.cycles path.chain.items) }
{
    let rows = outgoing(alloc, graph.insns.len(), &graph.edges)?;
    let tails = tails_of(alloc, &rows)?;
    let chain = chain_of(alloc, &rows, &tails)?;
    Ok(Path {
        cycles: greatest_of(&tails),
        chain,
    })
}

/// The lower bound of a graph by a description without a fault: no legal schedule ends before it. docs/RULES.md, 'Lower bounds'.
pub fn bound(alloc: Global, checked: &Checked, graph: &Graph) -> Result<Bound, NoMemory>
    requires { IsSchedulable (length checked.now.classes.items) graph.now }
    ensures bound { IfOk result (λ b. IsBoundBy (ways_by (lists_in checked.now.classes.items)) (names_of checked.now) (graph_of graph.now) (bound_of b)) }
    ensures range { IfOk result (IsInRange checked.now graph.now) }
{
    let path = path_of(alloc, graph)?;
    let load = heaviest_of(alloc, checked, &graph.insns)?;
    Ok(Bound {
        path: path.cycles,
        chain: path.chain,
        load,
        value: path.cycles.max(value_of(load)),
    })
}
