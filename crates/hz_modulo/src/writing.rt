//! The text of a kernel.

ghost use Rattle.std.specs.Prelude.{◌-◌, ◌^◌, ◌<◌, ◌++◌, length, map, All};
ghost use Rattle.std.specs.List.{flat_map};
ghost use Rattle.hz_io.specs.Sink.{Writes};
ghost use Rattle.hz_block_model.specs.Scheduling.Schedules.{present};
ghost use Rattle.hz_measure_model.specs.Kernels.KernelTexts as model;
ghost use Rattle.hz_sched.specs.Shape.{graph_of, slots_of};
ghost use Rattle.hz_modulo.specs.Walking.{kernel_slot_of};
ghost use Rattle.hz_modulo.specs.Kernels.{IsInRange};

use crate::parts::{Kernel, KernelSlot};
use hz_depend::Graph;
use hz_io::{Failed, Sink, put_all};
use hz_regexp::Name;
use hz_sched::{Schedule, class_name, number_at};
use hz_tables::Machine;
use itoa::Buffer;

/// Writes the first lines: the interval, and how many stages there are.
fn put_interval<S: Sink>(out: &mut S, interval: u32, stages: u32) -> Result<(), Failed>
    requires { S.faults out.old < 2 ^ 64 - 1 }
    ensures { Writes S.written S.room S.faults out.old out.new (model.interval_lines interval stages) result }
{
    let mut interval_digits = Buffer::new();
    let mut stage_digits = Buffer::new();
    put_all(
        out,
        &[
            b"interval ",
            interval_digits.format(interval).as_bytes(),
            b"\nstages ",
            stage_digits.format(stages).as_bytes(),
            b"\n",
        ],
    )
}

/// Writes a line: the cycle in the interval, the stage, and the number and the class of an instruction.
fn put_line<S: Sink>(
    out: &mut S,
    offset: u32,
    stage: u32,
    number: u32,
    class: &Name,
) -> Result<(), Failed>
    requires { S.faults out.old < 2 ^ 64 - 1 }
    ensures { Writes S.written S.room S.faults out.old out.new (model.kernel_line offset stage number class.now) result }
{
    let mut offset_digits = Buffer::new();
    let mut stage_digits = Buffer::new();
    let mut number_digits = Buffer::new();
    put_all(
        out,
        &[
            offset_digits.format(offset).as_bytes(),
            b" ",
            stage_digits.format(stage).as_bytes(),
            b" ",
            number_digits.format(number).as_bytes(),
            b" ",
            class.bytes(),
            b"\n",
        ],
    )
}

/// Writes the line of a slot.
fn put_slot<S: Sink>(
    out: &mut S,
    machine: &Machine,
    graph: &Graph,
    slot: KernelSlot,
) -> Result<(), Failed>
    requires sink { S.faults out.old < 2 ^ 64 - 1 }
    requires place { slot.place < length graph.now.insns.items }
    requires classes { All (λ i. i.class < length machine.now.classes.items) graph.now.insns.items }
    ensures { Writes S.written S.room S.faults out.old out.new (model.line_of_kernel machine.now.classes.items (map (λ i. i.number) graph.now.insns.items) (graph_of graph.now) (kernel_slot_of slot)) result }
{
    put_line(
        out,
        slot.offset,
        slot.stage,
        number_at(graph, slot.place),
        class_name(machine, graph, slot.place),
    )
}

/// Writes the lines of all slots.
fn put_slots<S: Sink>(
    out: &mut S,
    machine: &Machine,
    graph: &Graph,
    slots: &[KernelSlot],
) -> Result<(), Failed>
    requires sink { S.faults out.old < 2 ^ 64 - 1 }
    requires range { All (λ x. x.place < length graph.now.insns.items) slots.now }
    requires classes { All (λ i. i.class < length machine.now.classes.items) graph.now.insns.items }
    ensures { Writes S.written S.room S.faults out.old out.new (flat_map (λ x. model.line_of_kernel machine.now.classes.items (map (λ i. i.number) graph.now.insns.items) (graph_of graph.now) (kernel_slot_of x)) slots.now) result }
{
    for slot in slots {
        match put_slot(out, machine, graph, *slot) {
            Ok(()) => {}
            Err(failed) => return Err(failed),
        }
    }
    Ok(())
}

/// Writes the last lines: the two turns that start in the same states, and the last cycle of the schedule.
fn put_edges<S: Sink>(out: &mut S, first: u32, second: u32, last: u32) -> Result<(), Failed>
    requires { S.faults out.old < 2 ^ 64 - 1 }
    ensures { Writes S.written S.room S.faults out.old out.new (model.edge_lines first second last) result }
{
    let mut first_digits = Buffer::new();
    let mut second_digits = Buffer::new();
    let mut last_digits = Buffer::new();
    put_all(
        out,
        &[
            b"edge ",
            first_digits.format(first).as_bytes(),
            b" equals edge ",
            second_digits.format(second).as_bytes(),
            b"\nlist ",
            last_digits.format(last).as_bytes(),
            b" cycles\n",
        ],
    )
}

/// Writes the lines of all slots, and the last lines.
fn put_rest<S: Sink>(
    out: &mut S,
    machine: &Machine,
    graph: &Graph,
    kernel: &Kernel,
    last: u32,
) -> Result<(), Failed>
    requires sink { S.faults out.old < 2 ^ 64 - 1 }
    requires range { IsInRange graph.now kernel.now }
    requires classes { All (λ i. i.class < length machine.now.classes.items) graph.now.insns.items }
    ensures { Writes S.written S.room S.faults out.old out.new (flat_map (model.line_of_kernel machine.now.classes.items (map (λ i. i.number) graph.now.insns.items) (graph_of graph.now)) (map kernel_slot_of kernel.now.slots.items) ++ model.edge_lines kernel.now.first_edge kernel.now.second_edge last) result }
{
    match put_slots(out, machine, graph, &kernel.slots) {
        Ok(()) => put_edges(out, kernel.first_edge, kernel.second_edge, last),
        Err(failed) => Err(failed),
    }
}

/// Writes a kernel: its interval and stages, a line for each of its slots, the edges, and the last cycle of the schedule. It takes no
/// memory. docs/FORMATS.md, 'Answers'.
pub fn write_kernel<S: Sink>(
    kernel: &Kernel,
    machine: &Machine,
    graph: &Graph,
    schedule: &Schedule,
    out: &mut S,
) -> Result<(), Failed>
    requires sink { S.faults out.old < 2 ^ 64 - 1 }
    requires range { IsInRange graph.now kernel.now }
    requires classes { All (λ i. i.class < length machine.now.classes.items) graph.now.insns.items }
    ensures { Writes S.written S.room S.faults out.old out.new (model.text_of_slots machine.now.classes.items (map (λ i. i.number) graph.now.insns.items) (graph_of graph.now) (map kernel_slot_of kernel.now.slots.items) kernel.now.interval kernel.now.stages kernel.now.first_edge kernel.now.second_edge (present 0 (slots_of schedule.now.slots.items))) result }
{
    match put_interval(out, kernel.interval, kernel.stages) {
        Ok(()) => put_rest(out, machine, graph, kernel, schedule.last_cycle()),
        Err(failed) => Err(failed),
    }
}
