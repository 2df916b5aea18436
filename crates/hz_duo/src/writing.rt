//! The text of a schedule of two blocks.

ghost use Rattle.std.specs.Prelude.{◌≡◌, ◌-◌, ◌^◌, ◌<◌, ◌++◌, length, map, All};
ghost use Rattle.std.specs.List.{flat_map};
ghost use Rattle.hz_io.specs.Sink.{Writes};
ghost use Rattle.hz_sched.specs.Shape.{graph_of};
ghost use Rattle.hz_measure_model.specs.TwoContexts.Texts as model;
ghost use Rattle.hz_duo.specs.Shape.{context_slot, IsOfEither, AreInRange, IsInRange};

use crate::parts::DuoSlot;
use hz_depend::Graph;
use hz_io::{Failed, Sink, put_all};
use hz_regexp::Name;
use hz_sched::{class_name, number_at};
use hz_tables::Machine;
use itoa::Buffer;

/// Writes a line: the cycle and the context, and the number and the class of the instruction that is issued.
fn put_line<S: Sink>(
    out: &mut S,
    cycle: u32,
    context: u8,
    number: u32,
    class: &Name,
) -> Result<(), Failed>
    requires { S.faults out.old < 2 ^ 64 - 1 }
    ensures { Writes S.written S.room S.faults out.old out.new (model.issue_line cycle context number class.now) result }
{
    let mut cycle_digits = Buffer::new();
    let mut context_digits = Buffer::new();
    let mut number_digits = Buffer::new();
    put_all(
        out,
        &[
            cycle_digits.format(cycle).as_bytes(),
            b" ",
            context_digits.format(context).as_bytes(),
            b" ",
            number_digits.format(number).as_bytes(),
            b" ",
            class.bytes(),
            b"\n",
        ],
    )
}

/// Writes the line of an issue of an instruction of a graph.
fn put_own<S: Sink>(
    out: &mut S,
    machine: &Machine,
    graph: &Graph,
    slot: DuoSlot,
) -> Result<(), Failed>
    requires sink { S.faults out.old < 2 ^ 64 - 1 }
    requires place { slot.place < length graph.now.insns.items }
    requires classes { All (λ i. i.class < length machine.now.classes.items) graph.now.insns.items }
    ensures { Writes S.written S.room S.faults out.old out.new (model.line_of_own machine.now.classes.items (map (λ i. i.number) graph.now.insns.items) (graph_of graph.now) (context_slot slot)) result }
{
    put_line(
        out,
        slot.cycle,
        slot.context,
        number_at(graph, slot.place),
        class_name(machine, graph, slot.place),
    )
}

/// Writes the line of an issue of either context.
fn put_slot<S: Sink>(
    out: &mut S,
    machine: &Machine,
    first: &Graph,
    second: &Graph,
    slot: DuoSlot,
) -> Result<(), Failed>
    requires sink { S.faults out.old < 2 ^ 64 - 1 }
    requires slot { IsOfEither (length first.now.insns.items) (length second.now.insns.items) slot }
    requires first { All (λ i. i.class < length machine.now.classes.items) first.now.insns.items }
    requires second { All (λ i. i.class < length machine.now.classes.items) second.now.insns.items }
    ensures { Writes S.written S.room S.faults out.old out.new (model.line_of_either machine.now.classes.items (map (λ i. i.number) first.now.insns.items) (map (λ i. i.number) second.now.insns.items) (graph_of first.now) (graph_of second.now) (context_slot slot)) result }
{
    if slot.context == 1 {
        put_own(out, machine, first, slot)
    } else {
        put_own(out, machine, second, slot)
    }
}

/// Writes the lines of all issues.
fn put_slots<S: Sink>(
    out: &mut S,
    machine: &Machine,
    first: &Graph,
    second: &Graph,
    slots: &[DuoSlot],
) -> Result<(), Failed>
    requires sink { S.faults out.old < 2 ^ 64 - 1 }
    requires range { IsInRange machine.now first.now second.now slots.now }
    ensures { Writes S.written S.room S.faults out.old out.new (flat_map (λ x. model.line_of_either machine.now.classes.items (map (λ i. i.number) first.now.insns.items) (map (λ i. i.number) second.now.insns.items) (graph_of first.now) (graph_of second.now) (context_slot x)) slots.now) result }
{
    for slot in slots {
        match put_slot(out, machine, first, second, *slot) {
            Ok(()) => {}
            Err(failed) => return Err(failed),
        }
    }
    Ok(())
}

/// The cycle of the last issue, 0 where there is none.
fn last_cycle(slots: &[DuoSlot]) -> u32
    ensures { result ≡ model.last_cycle 0 (map context_slot slots.now) }
{
    let mut cycle = 0;
    for slot in slots {
        cycle = slot.cycle;
    }
    cycle
}

/// How many instructions a graph has.
fn count_of(graph: &Graph) -> u64
    ensures { result ≡ length (map (λ i. i.number) graph.now.insns.items) }
{
    graph.insns.len() as u64
}

/// Writes the line that ends the schedule: how many instructions each context has, and the cycle of the last.
fn put_together<S: Sink>(out: &mut S, first: u64, second: u64, cycles: u32) -> Result<(), Failed>
    requires { S.faults out.old < 2 ^ 64 - 1 }
    ensures { Writes S.written S.room S.faults out.old out.new (model.together_line first second cycles) result }
{
    let mut first_digits = Buffer::new();
    let mut second_digits = Buffer::new();
    let mut cycle_digits = Buffer::new();
    put_all(
        out,
        &[
            b"scheduled ",
            first_digits.format(first).as_bytes(),
            b" + ",
            second_digits.format(second).as_bytes(),
            b" insns ",
            cycle_digits.format(cycles).as_bytes(),
            b" cycles\n",
        ],
    )
}

/// Writes the line of the last cycle of each block alone.
fn put_alone<S: Sink>(out: &mut S, first: u32, second: u32) -> Result<(), Failed>
    requires { S.faults out.old < 2 ^ 64 - 1 }
    ensures { Writes S.written S.room S.faults out.old out.new (model.alone_line first second) result }
{
    let mut first_digits = Buffer::new();
    let mut second_digits = Buffer::new();
    put_all(
        out,
        &[
            b"alone ",
            first_digits.format(first).as_bytes(),
            b" ",
            second_digits.format(second).as_bytes(),
            b" cycles\n",
        ],
    )
}

/// Writes the last two lines.
fn put_end<S: Sink>(
    out: &mut S,
    first: u64,
    second: u64,
    cycles: u32,
    alone: (u32, u32),
) -> Result<(), Failed>
    requires { S.faults out.old < 2 ^ 64 - 1 }
    ensures { Writes S.written S.room S.faults out.old out.new (model.together_line first second cycles ++ model.alone_line alone.0 alone.1) result }
{
    match put_together(out, first, second, cycles) {
        Ok(()) => put_alone(out, alone.0, alone.1),
        Err(failed) => Err(failed),
    }
}

/// Writes a schedule of two blocks: a line for each issue, how many instructions each context has with the cycle of the last, and the
/// last cycle of each block's own schedule. A prefix is written where the sink fails. It takes no memory. docs/FORMATS.md, 'Answers'.
pub fn write_duo<S: Sink>(
    slots: &[DuoSlot],
    machine: &Machine,
    first: &Graph,
    second: &Graph,
    alone: (u32, u32),
    out: &mut S,
) -> Result<(), Failed>
    requires sink { S.faults out.old < 2 ^ 64 - 1 }
    requires range { IsInRange machine.now first.now second.now slots.now }
    ensures { Writes S.written S.room S.faults out.old out.new (model.duo_text machine.now.classes.items (map (λ i. i.number) first.now.insns.items) (map (λ i. i.number) second.now.insns.items) (graph_of first.now) (graph_of second.now) (map context_slot slots.now) alone.0 alone.1) result }
{
    match put_slots(out, machine, first, second, slots) {
        Ok(()) => put_end(
            out,
            count_of(first),
            count_of(second),
            last_cycle(slots),
            alone,
        ),
        Err(failed) => Err(failed),
    }
}
