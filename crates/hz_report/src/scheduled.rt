//! Writing a schedule.

ghost use Rattle.std.specs.Prelude.{◌≡◌, ◌-◌, ◌^◌, ◌<◌, map, length, All};
ghost use Rattle.std.specs.List.{flat_map};
ghost use Rattle.hz_io.specs.Sink.{Writes};
ghost use Rattle.hz_answer_model.specs.Texts as model;
ghost use Rattle.hz_sched.specs.Shape.{graph_of, slot_of, slots_of};
ghost use Rattle.hz_report.specs.Schedules.{IsInRange, line_by, schedule_by};

use hz_depend::Graph;
use hz_io::{Failed, Sink, put_all};
use hz_regexp::Name;
use hz_sched::{Schedule, Slot, class_name, number_at};
use hz_tables::Machine;
use itoa::Buffer;

/// Writes a line: the cycle, and the number and the class of the instruction that is issued.
fn put_line<S: Sink>(out: &mut S, cycle: u32, number: u32, class: &Name) -> Result<(), Failed>
    requires { S.faults out.old < 2 ^ 64 - 1 }
    ensures { Writes S.written S.room S.faults out.old out.new (model.slot_line cycle number class.now) result }
{
    let mut cycle_digits = Buffer::new();
    let mut number_digits = Buffer::new();
    put_all(
        out,
        &[
            cycle_digits.format(cycle).as_bytes(),
            b" ",
            number_digits.format(number).as_bytes(),
            b" ",
            class.bytes(),
            b"\n",
        ],
    )
}

/// Writes the line of an issue.
fn put_slot<S: Sink>(
    out: &mut S,
    machine: &Machine,
    graph: &Graph,
    slot: Slot,
) -> Result<(), Failed>
    requires sink { S.faults out.old < 2 ^ 64 - 1 }
    requires place { slot.place < length graph.now.insns.items }
    requires classes { All (λ i. i.class < length machine.now.classes.items) graph.now.insns.items }
    ensures { Writes S.written S.room S.faults out.old out.new (line_by machine.now.classes.items (map (λ i. i.number) graph.now.insns.items) (graph_of graph.now) (slot_of slot)) result }
{
    put_line(
        out,
        slot.cycle,
        number_at(graph, slot.place),
        class_name(machine, graph, slot.place),
    )
}

/// Writes the lines of all issues.
fn put_slots<S: Sink>(
    out: &mut S,
    machine: &Machine,
    graph: &Graph,
    slots: &[Slot],
) -> Result<(), Failed>
    requires sink { S.faults out.old < 2 ^ 64 - 1 }
    requires places { All (λ x. x.place < length graph.now.insns.items) slots.now }
    requires classes { All (λ i. i.class < length machine.now.classes.items) graph.now.insns.items }
    ensures { Writes S.written S.room S.faults out.old out.new (flat_map (λ x. line_by machine.now.classes.items (map (λ i. i.number) graph.now.insns.items) (graph_of graph.now) (slot_of x)) slots.now) result }
{
    for slot in slots {
        match put_slot(out, machine, graph, *slot) {
            Ok(()) => {}
            Err(failed) => return Err(failed),
        }
    }
    Ok(())
}

/// How many issues there are.
fn count_of(schedule: &Schedule) -> u64
    ensures { result ≡ length (slots_of schedule.now.slots.items) }
{
    schedule.slots.len() as u64
}

/// Writes the line that ends a schedule: how many issues, and the cycle of the last.
fn put_end<S: Sink>(out: &mut S, count: u64, cycle: u32) -> Result<(), Failed>
    requires { S.faults out.old < 2 ^ 64 - 1 }
    ensures { Writes S.written S.room S.faults out.old out.new (model.scheduled_line count cycle) result }
{
    let mut count_digits = Buffer::new();
    let mut cycle_digits = Buffer::new();
    put_all(
        out,
        &[
            b"scheduled ",
            count_digits.format(count).as_bytes(),
            b" insns ",
            cycle_digits.format(cycle).as_bytes(),
            b" cycles\n",
        ],
    )
}

/// Writes the text of a schedule: all of it, or a front of it if the sink failed, with one more fault. The machine has the names of its
/// classes, the graph its instructions. It takes no memory. Source: this profile, docs/FORMATS.md, 'Answers'.
pub fn write_schedule<S: Sink>(
    machine: &Machine,
    graph: &Graph,
    schedule: &Schedule,
    out: &mut S,
) -> Result<(), Failed>
    requires sink { S.faults out.old < 2 ^ 64 - 1 }
    requires range { IsInRange machine.now graph.now schedule.now }
    ensures { Writes S.written S.room S.faults out.old out.new (schedule_by machine.now.classes.items (map (λ i. i.number) graph.now.insns.items) (graph_of graph.now) (slots_of schedule.now.slots.items)) result }
{
    match put_slots(out, machine, graph, &schedule.slots) {
        Ok(()) => put_end(out, count_of(schedule), schedule.last_cycle()),
        Err(failed) => Err(failed),
    }
}
