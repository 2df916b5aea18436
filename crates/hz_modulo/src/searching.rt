//! The first interval at which turns repeat.

ghost use Rattle.std.specs.Prelude.{◌≡◌, ◌<◌, ◌≤◌, ◌+◌, ◌^◌, ℕ, length, All, IfOk, IfSome, IfNone};
ghost use Rattle.hz_block_model.specs.Scheduling.Machines.{Settles};
ghost use Rattle.hz_block_model.specs.Scheduling.Schedules.{present};
ghost use Rattle.hz_measure_model.specs.Kernels.Repeats.{stage_limit};
ghost use Rattle.hz_measure_model.specs.Kernels.Turns.{stages};
ghost use Rattle.hz_sched.specs.Shape.{slots_of};
ghost use Rattle.hz_tables.specs.Machines.{machine_of};
ghost use Rattle.hz_modulo.specs.Walking.{graph_of};
ghost use Rattle.hz_modulo.specs.Heights.{LeavesRoom};
ghost use Rattle.hz_modulo.specs.Lanes.{IsLaneOf};
ghost use Rattle.hz_modulo.specs.Kernels.{RepeatsIn, IsKernelAt, IsFirstFrom, IsRoomyFrom};

use crate::lanes::{Lane, lanes_of, stuck_lane};
use crate::loads::least_room;
use crate::parts::Kernel;
use crate::repeating::first_repeat;
use crate::sorting::kernel_slots;
use hz_checked::Checked;
use hz_regexp::NoMemory;
use hz_sched::Slot;
use hz_tables::Machine;
use std::alloc::Global;

/// So many cycles after the last of the schedule each wait is over, and the machine is in its start again.
const MOST_WAIT: u32 = 1_000;

/// The kernel at an interval, if the turns repeat there. `last` is the last cycle of the slots. The part that is likely to refuse is asked
/// first; it becomes the one that refuses.
fn kernel_at(
    alloc: Global,
    machine: &Machine,
    classes: &[u32],
    slots: &[Slot],
    last: u32,
    interval: u32,
    lanes: &[Lane<'_>],
    likely: &mut usize,
) -> Result<Option<Kernel>, NoMemory>
    requires lanes { All (IsLaneOf (machine_of machine.now)) lanes.now }
    requires settles { Settles (machine_of machine.now) }
    requires classes { All (λ c. c < length machine.now.classes.items) classes.now }
    requires places { All (λ x. x.place < length classes.now) slots.now }
    requires last { last ≡ present 0 (slots_of slots.now) }
    requires rising { All (λ x. x.cycle ≤ last) (slots_of slots.now) }
    requires some { 0 < interval }
    requires few { stages interval (slots_of slots.now) ≤ stage_limit }
    ensures found { IfOk result (λ kernel. IfSome kernel (IsKernelAt (machine_of machine.now) (graph_of classes.now) (slots_of slots.now) interval)) }
    ensures range { IfOk result (λ kernel. IfSome kernel (λ k. All (λ x. x.place < length classes.now) k.slots.items)) }
    ensures none { IfOk result (λ kernel. IfNone kernel ((first second : ℕ) → RepeatsIn (machine_of machine.now) (graph_of classes.now) (slots_of slots.now) interval first second → ⊥)) }
{
    let stages = last / interval;
    let slots = kernel_slots(alloc, slots, interval)?;
    if let Some(lane) = stuck_lane(lanes, *likely, classes, &slots, interval, stages) {
        *likely = lane;
        return Ok(None);
    }
    match first_repeat(alloc, machine, classes, &slots, interval, stages)? {
        Some(repeat) => Ok(Some(Kernel {
            interval,
            stages: stages + 1,
            slots,
            first_edge: repeat.first,
            second_edge: repeat.second,
        })),
        None => Ok(None),
    }
}

/// The kernel at the first interval from one on at which the turns repeat. One comes at most 1,000 cycles after the last of the slots.
fn first_kernel(
    alloc: Global,
    machine: &Machine,
    classes: &[u32],
    slots: &[Slot],
    last: u32,
    first: u32,
) -> Result<Kernel, NoMemory>
    requires settles { Settles (machine_of machine.now) }
    requires classes { All (λ c. c < length machine.now.classes.items) classes.now }
    requires places { All (λ x. x.place < length classes.now) slots.now }
    requires last { last ≡ present 0 (slots_of slots.now) }
    requires rising { All (λ x. x.cycle ≤ last) (slots_of slots.now) }
    requires small { last < 2 ^ 30 }
    requires some { 0 < first }
    requires few { (interval : ℕ) → first ≤ interval → stages interval (slots_of slots.now) ≤ stage_limit }
    requires near { first ≤ last + 1000 }
    requires long { RepeatsIn (machine_of machine.now) (graph_of classes.now) (slots_of slots.now) (last + 1000) 0 1 }
    ensures first { IfOk result (IsFirstFrom (machine_of machine.now) (graph_of classes.now) (slots_of slots.now) first) }
    ensures range { IfOk result (λ k. All (λ x. x.place < length classes.now) k.slots.items) }
{
    let lanes = lanes_of(alloc, machine)?;
    let mut likely: usize = 0;
    for interval in first..last + MOST_WAIT + 1 {
        if let Some(kernel) = kernel_at(
            alloc,
            machine,
            classes,
            slots,
            last,
            interval,
            &lanes,
            &mut likely,
        )? {
            return Ok(kernel);
        }
    }
    unreachable!()
}

/// The kernel at the first interval from one on at which the turns repeat, and which leaves room for what they ask of each part: no other
/// repeats. One comes at most 1,000 cycles after the last of the slots.
pub fn first_with_room(
    alloc: Global,
    machine: &Machine,
    checked: &Checked,
    classes: &[u32],
    slots: &[Slot],
    last: u32,
    first: u32,
) -> Result<Kernel, NoMemory>
    requires settles { Settles (machine_of machine.now) }
    requires classes { All (λ c. c < length machine.now.classes.items) classes.now }
    requires places { All (λ x. x.place < length classes.now) slots.now }
    requires last { last ≡ present 0 (slots_of slots.now) }
    requires rising { All (λ x. x.cycle ≤ last) (slots_of slots.now) }
    requires small { last < 2 ^ 30 }
    requires some { 0 < first }
    requires few { (interval : ℕ) → first ≤ interval → stages interval (slots_of slots.now) ≤ stage_limit }
    requires near { first ≤ last + 1000 }
    requires long { RepeatsIn (machine_of machine.now) (graph_of classes.now) (slots_of slots.now) (last + 1000) 0 1 }
    requires room { LeavesRoom (machine_of machine.now) classes.now (last + 1000) }
    ensures first { IfOk result (IsRoomyFrom (machine_of machine.now) classes.now (slots_of slots.now) first) }
    ensures range { IfOk result (λ k. All (λ x. x.place < length classes.now) k.slots.items) }
{
    let least = least_room(alloc, machine, checked, classes, first)?;
    first_kernel(alloc, machine, classes, slots, last, first.max(least))
}
