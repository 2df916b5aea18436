//! The edges of a block's dependence graph: to each instruction from those that its tables tell.

ghost use Rattle.std.specs.Prelude.{◌≡◌, ◌≤◌, ◌<◌, ◌==◌, ◌+◌, ◌++◌, ℕ, if◌then◌else◌, length, map, slice_index, IfOk, OnOk};
ghost use Rattle.hz_block_model.specs.Dependences.Accesses.{is_among};
ghost use Rattle.hz_depend.specs.GraphShape.{edge_of};
ghost use Rattle.hz_depend.specs.Held.{held, found_among, all_found};
ghost use Rattle.hz_depend.specs.Numbers.{numbers_in};
ghost use Rattle.hz_block_model.specs.Running.Limits.{instruction_limit};

use crate::finding::access::Touched;
use crate::finding::numbers::Numbers;
use crate::finding::pairs::{REGISTERS, cost};
use crate::finding::tables::Tables;
use crate::nodes::Node;
use crate::parts::Edge;
use hz_regexp::NoMemory;
use std::alloc::Global;

/// Adds the edges to the instruction at a place from those before it that are marked.
fn add_edges(
    edges: &mut Vec<Edge>,
    stamps: &[u32],
    last: &[u32],
    numbers: &Numbers,
    firsts: &[Node<'_>],
    to: u32,
    second: &Node<'_>,
) -> Result<(), NoMemory>
    requires registers { length last.now ≡ 256 }
    requires few { length firsts.now ≤ instruction_limit }
    requires place { to < instruction_limit }
    requires stamps { length firsts.now ≤ length stamps.now }
    ensures { OnOk result (map edge_of edges.new.items ≡ map edge_of edges.old.items ++ found_among (λ i. slice_index stamps.now i == to + 1) (slice_index last.now) (numbers_in numbers.now) to (held second.now) 0 (map held firsts.now)) }
{
    for (place, first) in firsts.iter().enumerate() {
        if stamps[place] == to + 1 {
            let from = place as u32;
            if let Some(cost) = cost(last, numbers, from, first, second) {
                edges.push(Edge { from, to, cost })?;
            }
        }
    }
    Ok(())
}

/// Notes that an instruction writes registers.
fn note_written(last: &mut [u32], written: &Touched, after: u32)
    requires { length last.old ≡ 256 }
    ensures { (r : ℕ) → slice_index last.new r ≡ (if is_among written.now.registers.items r then after else slice_index last.old r) }
{
    for register in &written.registers {
        last[usize::from(*register)] = after;
    }
}

/// All edges.
pub fn edges_of(alloc: Global, numbers: &Numbers, nodes: &[Node<'_>]) -> Result<Vec<Edge>, NoMemory>
    requires { length nodes.now ≤ instruction_limit }
    ensures { IfOk result (λ edges. map edge_of edges.items ≡ all_found (numbers_in numbers.now) (map held nodes.now) (length nodes.now)) }
{
    let mut last = [0; REGISTERS];
    let mut tables = Tables::new(alloc)?;
    let mut held = vec![in alloc; 0; nodes.len()]?;
    let stamps = held.as_mut_slice();
    let mut edges = Vec::new(alloc);
    for (place, node) in nodes.iter().enumerate() {
        let to = place as u32;
        let firsts = &nodes[..place];
        tables.mark(stamps, to + 1, &last, node);
        add_edges(&mut edges, stamps, &last, numbers, firsts, to, node)?;
        tables.note(node, to)?;
        note_written(&mut last, &node.access.written, to + 1);
    }
    Ok(edges)
}
