//! The dependence graph of a block.

ghost use Rattle.std.specs.Prelude.{◌≡◌, ◌≤◌, ◌<◌, ℕ, List, length, map, slice_index, IfOk};
ghost use Rattle.hz_depend.specs.GraphShape.{IsGraphOf, IsSchedulable, class_fault_in, first_class_fault};
ghost use Rattle.hz_depend.specs.Relaxing.{height_at};
ghost use Rattle.hz_block_model.specs.Running.Limits.{instruction_limit};

use crate::building::edges::edges_of;
use crate::building::heights::{height_at, sums_of};
use crate::fault::DependFault;
use crate::finding::numbers::Numbers;
use crate::nodes::{Node, first_class_fault, nodes_of};
use crate::parts::{Graph, GraphInsn};
use hz_checked::Checked;
use hz_regexp::NoMemory;
use hz_rtl::{Block, Insn};
use std::alloc::Global;

pub(crate) mod edges;
pub(crate) mod heights;

/// The instructions of a graph.
fn insns_of(
    alloc: Global,
    insns: &[Insn],
    nodes: &[Node<'_>],
    sums: &[Option<u32>],
) -> Result<Vec<GraphInsn>, NoMemory>
    requires nodes { length insns.now ≡ length nodes.now }
    requires sums { length insns.now ≡ length sums.now }
    ensures numbers { IfOk result (λ made. map (λ i. i.number) made.items ≡ map (λ i. i.number) insns.now) }
    ensures lines { IfOk result (λ made. map (λ i. i.line) made.items ≡ map (λ i. i.line) insns.now) }
    ensures classes { IfOk result (λ made. map (λ i. i.class) made.items ≡ map (λ n. n.class) nodes.now) }
    ensures latencies { IfOk result (λ made. map (λ i. i.latency) made.items ≡ map (λ n. n.latency) nodes.now) }
    ensures heights { IfOk result (λ made. (i : ℕ) → i < length made.items → slice_index (map (λ i. i.height) made.items) i ≡ height_at (map (λ n. n.latency) nodes.now) sums.now i) }
{
    let mut made = Vec::new(alloc);
    for (place, insn) in insns.iter().enumerate() {
        let node = &nodes[place];
        made.push(GraphInsn {
            number: insn.number,
            line: insn.line,
            class: node.class,
            latency: node.latency,
            height: height_at(nodes, sums, place),
        })?;
    }
    Ok(made)
}

/// The dependence graph of a block of at most 4,096 instructions: one edge for each dependence, with its cost in cycles, and
/// heights. The first instruction in the order of the source whose class is wrong is reported.
pub fn graph(alloc: Global, checked: &Checked, block: &Block) -> Result<Graph, DependFault>
    requires { length block.now.insns.items ≤ instruction_limit }
    ensures graph { IfOk result (λ graph. IsGraphOf checked.now block.now graph) }
    ensures schedulable { IfOk result (λ graph. IsSchedulable (length checked.now.classes.items) graph) }
    ensures fault { class_fault_in result ≡ first_class_fault 0 checked.now block.now.insns.items }
{
    if let Some((place, fault)) = first_class_fault(checked, &block.insns) {
        return Err(DependFault::Class { place, fault });
    }
    let nodes = nodes_of(alloc, checked, &block.insns)?;
    let numbers = Numbers::of(alloc, checked)?;
    let edges = edges_of(alloc, &numbers, &nodes)?;
    let sums = sums_of(alloc, &nodes, &edges)?;
    let insns = insns_of(alloc, &block.insns, &nodes, &sums)?;
    Ok(Graph { insns, edges })
}
