//! The schedule of two blocks in one pipeline.

ghost use Rattle.std.specs.Prelude.{◌≡◌, ◌<◌, ◌≤◌, ◌+◌, length, map, None, All, IfOk};
ghost use Rattle.hz_block_model.specs.Running.Limits.{instruction_limit};
ghost use Rattle.hz_block_model.specs.Scheduling.Machines.{Settles};
ghost use Rattle.hz_depend.specs.GraphShape.{IsSchedulable};
ghost use Rattle.hz_sched.specs.Shape.{graph_of, slot_of, slots_of};
ghost use Rattle.hz_tables.specs.Machines.{machine_of};
ghost use Rattle.hz_measure_model.specs.TwoContexts.Joining as model;
ghost use Rattle.hz_measure_model.specs.TwoContexts.Stuck.{stuck_of_two};
ghost use Rattle.hz_duo.specs.Shape.{context_slot, stuck_in, IsDuoOf, IsPaired, AreInRange};

use crate::fault::DuoFault;
use crate::joining::join;
use crate::parts::DuoSlot;
use hz_depend::Graph;
use hz_regexp::NoMemory;
use hz_sched::{Schedule, Slot, first_stuck, schedule};
use hz_tables::Machine;
use std::alloc::Global;

/// Whose issue a slot of the joined graph is, where the first block has so many instructions.
fn in_context(slot: Slot, count: u32) -> DuoSlot
    ensures { context_slot result ≡ model.in_context count (slot_of slot) }
{
    if slot.place < count {
        DuoSlot {
            context: 1,
            place: slot.place,
            cycle: slot.cycle,
        }
    } else {
        DuoSlot {
            context: 2,
            place: slot.place - count,
            cycle: slot.cycle,
        }
    }
}

/// The same of all slots.
fn in_contexts(alloc: Global, slots: &[Slot], count: u32) -> Result<Vec<DuoSlot>, NoMemory>
    ensures { IfOk result (λ made. map context_slot made.items ≡ model.in_contexts count (slots_of slots.now)) }
{
    let mut made = Vec::new(alloc);
    for slot in slots {
        made.push(in_context(*slot, count))?;
    }
    Ok(made)
}

/// The slots of a schedule of the joined graph, by their contexts.
fn paired(alloc: Global, schedule: &Schedule, first: &Graph) -> Result<Vec<DuoSlot>, NoMemory>
    requires { length first.now.insns.items ≤ instruction_limit }
    ensures { IfOk result (λ slots. IsPaired (length first.now.insns.items) (slots_of schedule.now.slots.items) slots.items) }
{
    in_contexts(alloc, &schedule.slots, first.insns.len() as u32)
}

/// The slots of both, where each instruction can be issued from the start.
fn slots_of_both(
    alloc: Global,
    machine: &Machine,
    first: &Graph,
    second: &Graph,
) -> Result<Vec<DuoSlot>, DuoFault>
    requires settles { Settles (machine_of machine.now) }
    requires first { IsSchedulable (length machine.now.classes.items) first.now }
    requires second { IsSchedulable (length machine.now.classes.items) second.now }
    requires few { length first.now.insns.items + length second.now.insns.items ≤ instruction_limit }
    requires start { stuck_of_two (machine_of machine.now) (graph_of first.now) (graph_of second.now) ≡ None }
    ensures schedule { IfOk result (λ slots. IsDuoOf (machine_of machine.now) (graph_of first.now) (graph_of second.now) slots.items) }
    ensures range { IfOk result (λ slots. AreInRange (length first.now.insns.items) (length second.now.insns.items) slots.items) }
    ensures fault { stuck_in result ≡ None }
{
    let Ok(graph) = join(alloc, first, second) else {
        return Err(DuoFault::NoMemory);
    };
    let Ok(made) = schedule(alloc, machine, &graph) else {
        return Err(DuoFault::NoMemory);
    };
    match paired(alloc, &made, first) {
        Ok(slots) => Ok(slots),
        Err(_) => Err(DuoFault::NoMemory),
    }
}

/// The schedule of two blocks in one pipeline: that of their joined graph, with the context of each issue. `CannotStartAlone` tells
/// the first instruction whose class can't be issued even where nothing else is, of the first context before the second.
/// docs/RULES.md, 'Two contexts'.
pub fn duo(
    alloc: Global,
    machine: &Machine,
    first: &Graph,
    second: &Graph,
) -> Result<Vec<DuoSlot>, DuoFault>
    requires settles { Settles (machine_of machine.now) }
    requires first { IsSchedulable (length machine.now.classes.items) first.now }
    requires second { IsSchedulable (length machine.now.classes.items) second.now }
    requires few { length first.now.insns.items + length second.now.insns.items ≤ instruction_limit }
    ensures schedule { IfOk result (λ slots. IsDuoOf (machine_of machine.now) (graph_of first.now) (graph_of second.now) slots.items) }
    ensures range { IfOk result (λ slots. AreInRange (length first.now.insns.items) (length second.now.insns.items) slots.items) }
    ensures fault { stuck_in result ≡ stuck_of_two (machine_of machine.now) (graph_of first.now) (graph_of second.now) }
{
    if let Some(place) = first_stuck(alloc, machine, first) {
        return Err(DuoFault::CannotStartAlone { context: 1, place });
    }
    if let Some(place) = first_stuck(alloc, machine, second) {
        return Err(DuoFault::CannotStartAlone { context: 2, place });
    }
    slots_of_both(alloc, machine, first, second)
}
