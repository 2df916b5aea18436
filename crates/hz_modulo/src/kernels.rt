//! The kernel of a loop.

ghost use Rattle.std.specs.Prelude.{◌≡◌, ◌≤◌, ◌<◌, ◌*◌, length, map, All, IfOk};
ghost use Rattle.hz_pipeline_model.specs.Tables.Machines.{IsWalked};
ghost use Rattle.hz_block_model.specs.Scheduling.Machines.{Settles, most_wait};
ghost use Rattle.hz_block_model.specs.Scheduling.Schedules.{Legal};
ghost use Rattle.hz_depend.specs.GraphShape.{IsGraphOf, IsSchedulable};
ghost use Rattle.hz_sched.specs.Shape.{graph_of, slots_of};
ghost use Rattle.hz_tables.specs.Machines.{machine_of};
ghost use Rattle.hz_measure_model.specs.Kernels.Repeats.{body_limit};
ghost use Rattle.hz_modulo.specs.Kernels.{IsKernelOf, IsInRange};

use crate::costs::first_interval;
use crate::cycles::cycles_of;
use crate::edges::turn_edges;
use crate::parts::Kernel;
use crate::searching::first_with_room;
use hz_checked::Checked;
use hz_depend::{Graph, GraphInsn};
use hz_regexp::NoMemory;
use hz_rtl::Block;
use hz_sched::Schedule;
use hz_tables::Machine;
use std::alloc::Global;

/// The classes of instructions, by their places.
fn classes_of(alloc: Global, insns: &[GraphInsn]) -> Result<Vec<u32>, NoMemory>
    ensures { IfOk result (λ classes. classes.items ≡ map (λ i. i.class) insns.now) }
{
    let mut classes = Vec::new(alloc);
    for insn in insns {
        classes.push(insn.class)?;
    }
    Ok(classes)
}

/// The kernel of a loop whose body is a block of at most 256 instructions, where each turn is placed as this schedule of the block:
/// the least interval at which the costs of all dependences are kept, the turns fit into the pipeline, and the states of the machine
/// repeat. There is always one. docs/RULES.md, 'Kernels of loops'.
pub fn kernel(
    alloc: Global,
    machine: &Machine,
    checked: &Checked,
    block: &Block,
    graph: &Graph,
    schedule: &Schedule,
) -> Result<Kernel, NoMemory>
    requires few { length block.now.insns.items ≤ body_limit }
    requires settles { Settles (machine_of machine.now) }
    requires graph { IsGraphOf checked.now block.now graph.now }
    requires schedulable { IsSchedulable (length machine.now.classes.items) graph.now }
    requires legal { Legal (IsWalked (machine_of machine.now)) (graph_of graph.now) (slots_of schedule.now.slots.items) }
    requires soon { All (λ x. x.cycle ≤ most_wait * length graph.now.insns.items) schedule.now.slots.items }
    ensures kernel { IfOk result (IsKernelOf machine.now checked.now block.now graph.now schedule.now.slots.items) }
    ensures range { IfOk result (IsInRange graph.now) }
{
    let classes = classes_of(alloc, &graph.insns)?;
    let edges = turn_edges(alloc, checked, block, graph)?;
    let cycles = cycles_of(alloc, &schedule.slots, graph.insns.len())?;
    let last = schedule.last_cycle();
    let first = first_interval(&cycles, last, &edges);
    first_with_room(
        alloc,
        machine,
        checked,
        &classes,
        &schedule.slots,
        last,
        first,
    )
}
