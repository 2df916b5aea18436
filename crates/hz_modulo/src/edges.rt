//! What depends on what in three turns.

ghost use Rattle.std.specs.Prelude.{◌≡◌, ◌≤◌, length, IfOk};
ghost use Rattle.hz_depend.specs.GraphShape.{IsGraphOf};
ghost use Rattle.hz_modulo.specs.Costs.{AreTurnEdges};
ghost use Rattle.hz_measure_model.specs.Kernels.Repeats.{body_limit};

use crate::copies::three_times;
use hz_checked::Checked;
use hz_depend::{DependFault, Edge, Graph, graph};
use hz_regexp::NoMemory;
use hz_rtl::Block;
use std::alloc::Global;

/// The edges of three copies in a row of a block of at most 256 instructions, whose graph is known.
pub fn turn_edges(
    alloc: Global,
    checked: &Checked,
    block: &Block,
    known: &Graph,
) -> Result<Vec<Edge>, NoMemory>
    requires few { length block.now.insns.items ≤ body_limit }
    requires graph { IsGraphOf checked.now block.now known.now }
    ensures { IfOk result (λ edges. AreTurnEdges checked.now block.now known.now edges.items) }
{
    let turns = three_times(alloc, block)?;
    match graph(alloc, checked, &turns) {
        Ok(made) => Ok(made.edges),
        Err(DependFault::Class { place: _, fault: _ }) => unreachable!(),
        Err(DependFault::NoMemory) => Err(NoMemory),
    }
}
