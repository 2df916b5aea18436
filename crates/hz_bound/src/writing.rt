//! The text of a bound.

ghost use Rattle.std.specs.Prelude.{◌≡◌, ◌-◌, ◌^◌, ◌<◌, ◌++◌, [], Some, codes, length, map, All, slice_index, slice_index_or};
ghost use Rattle.std.specs.List.{flat_map};
ghost use Rattle.std.specs.Option.{option_map};
ghost use Rattle.hz_io.specs.Sink.{Writes};
ghost use Rattle.hz_sched.specs.Shape.{slots_of};
ghost use Rattle.hz_block_model.specs.Scheduling.Schedules.{present};
ghost use Rattle.hz_measure_model.specs.Bounds.Texts as model;
ghost use Rattle.hz_bound.specs.Shape.{names_of, load_of, bound_of, IsAmong, IsInRange};

use crate::parts::{Bound, Load};
use hz_checked::Checked;
use hz_depend::Graph;
use hz_io::{Failed, Sink, put_all};
use hz_regexp::Name;
use hz_sched::{Schedule, number_at};
use itoa::Buffer;

/// Writes a number after a blank.
fn put_number<S: Sink>(out: &mut S, number: u32) -> Result<(), Failed>
    requires { S.faults out.old < 2 ^ 64 - 1 }
    ensures { Writes S.written S.room S.faults out.old out.new (model.number_field number) result }
{
    let mut digits = Buffer::new();
    put_all(out, &[b" ", digits.format(number).as_bytes()])
}

/// Writes the numbers of the instructions at places, each after a blank.
fn put_numbers<S: Sink>(out: &mut S, graph: &Graph, places: &[u32]) -> Result<(), Failed>
    requires sink { S.faults out.old < 2 ^ 64 - 1 }
    requires places { All (λ place. place < length graph.now.insns.items) places.now }
    ensures { Writes S.written S.room S.faults out.old out.new (flat_map (λ place. model.number_field (slice_index (map (λ i. i.number) graph.now.insns.items) place)) places.now) result }
{
    for place in places {
        match put_number(out, number_at(graph, *place)) {
            Ok(()) => {}
            Err(failed) => return Err(failed),
        }
    }
    Ok(())
}

/// Writes these numbers and the end of their line.
fn put_chain<S: Sink>(out: &mut S, graph: &Graph, places: &[u32]) -> Result<(), Failed>
    requires sink { S.faults out.old < 2 ^ 64 - 1 }
    requires places { All (λ place. place < length graph.now.insns.items) places.now }
    ensures { Writes S.written S.room S.faults out.old out.new (flat_map model.number_field (map (slice_index (map (λ i. i.number) graph.now.insns.items)) places.now) ++ codes "\n") result }
{
    match put_numbers(out, graph, places) {
        Ok(()) => out.put(b"\n"),
        Err(failed) => Err(failed),
    }
}

/// Writes the greatest tail.
fn put_word<S: Sink>(out: &mut S, path: u32) -> Result<(), Failed>
    requires { S.faults out.old < 2 ^ 64 - 1 }
    ensures { Writes S.written S.room S.faults out.old out.new (model.path_word path) result }
{
    let mut digits = Buffer::new();
    put_all(out, &[b"path ", digits.format(path).as_bytes()])
}

/// Writes the line of the greatest tail and its chain.
fn put_path<S: Sink>(out: &mut S, graph: &Graph, path: u32, places: &[u32]) -> Result<(), Failed>
    requires sink { S.faults out.old < 2 ^ 64 - 1 }
    requires places { All (λ place. place < length graph.now.insns.items) places.now }
    ensures { Writes S.written S.room S.faults out.old out.new (model.path_line path (map (slice_index (map (λ i. i.number) graph.now.insns.items)) places.now)) result }
{
    match put_word(out, path) {
        Ok(()) => put_chain(out, graph, places),
        Err(failed) => Err(failed),
    }
}

/// The name of the unit of a load.
fn unit_name<'a>(checked: &'a Checked, load: Load) -> &'a Name
    requires { IsAmong (names_of checked.now) (Some load) }
    ensures { result.now ≡ model.unit_name (names_of checked.now) (load_of load).unit }
{
    &checked.automata[load.automaton as usize].units[load.unit as usize]
}

/// Writes the line of the load of a unit of this name.
fn put_unit<S: Sink>(out: &mut S, unit: &Name, load: Load) -> Result<(), Failed>
    requires { S.faults out.old < 2 ^ 64 - 1 }
    ensures { Writes S.written S.room S.faults out.old out.new (model.load_line unit.now (load_of load).load) result }
{
    let mut count = Buffer::new();
    let mut span = Buffer::new();
    let mut value = Buffer::new();
    put_all(
        out,
        &[
            b"load ",
            unit.bytes(),
            b" ",
            count.format(load.count).as_bytes(),
            b" ",
            span.format(load.span).as_bytes(),
            b" ",
            value.format(load.value).as_bytes(),
            b"\n",
        ],
    )
}

/// Writes the line of the greatest load.
fn put_load<S: Sink>(out: &mut S, checked: &Checked, load: Option<Load>) -> Result<(), Failed>
    requires sink { S.faults out.old < 2 ^ 64 - 1 }
    requires unit { IsAmong (names_of checked.now) load }
    ensures { Writes S.written S.room S.faults out.old out.new (model.heaviest_line (names_of checked.now) (option_map load_of load)) result }
{
    match load {
        None => out.put(b"load -\n"),
        Some(load) => put_unit(out, unit_name(checked, load), load),
    }
}

/// Writes the line of the bound.
fn put_value<S: Sink>(out: &mut S, value: u32) -> Result<(), Failed>
    requires { S.faults out.old < 2 ^ 64 - 1 }
    ensures { Writes S.written S.room S.faults out.old out.new (model.bound_line value) result }
{
    let mut digits = Buffer::new();
    put_all(out, &[b"bound ", digits.format(value).as_bytes(), b"\n"])
}

/// Writes the line of the last cycle of a schedule.
fn put_cycles<S: Sink>(out: &mut S, cycles: u32) -> Result<(), Failed>
    requires { S.faults out.old < 2 ^ 64 - 1 }
    ensures { Writes S.written S.room S.faults out.old out.new (model.cycles_line cycles) result }
{
    let mut digits = Buffer::new();
    put_all(
        out,
        &[b"schedule ", digits.format(cycles).as_bytes(), b" cycles\n"],
    )
}

/// Writes the lines of the bound and of the last cycle.
fn put_end<S: Sink>(out: &mut S, value: u32, cycles: u32) -> Result<(), Failed>
    requires { S.faults out.old < 2 ^ 64 - 1 }
    ensures { Writes S.written S.room S.faults out.old out.new (model.bound_line value ++ model.cycles_line cycles) result }
{
    match put_value(out, value) {
        Ok(()) => put_cycles(out, cycles),
        Err(failed) => Err(failed),
    }
}

/// Writes all lines but the first.
fn put_rest<S: Sink>(
    out: &mut S,
    checked: &Checked,
    load: Option<Load>,
    value: u32,
    cycles: u32,
) -> Result<(), Failed>
    requires sink { S.faults out.old < 2 ^ 64 - 1 }
    requires unit { IsAmong (names_of checked.now) load }
    ensures { Writes S.written S.room S.faults out.old out.new (model.heaviest_line (names_of checked.now) (option_map load_of load) ++ (model.bound_line value ++ model.cycles_line cycles)) result }
{
    match put_load(out, checked, load) {
        Ok(()) => put_end(out, value, cycles),
        Err(failed) => Err(failed),
    }
}

/// Writes the four lines of all.
fn put_bound<S: Sink>(
    out: &mut S,
    bound: &Bound,
    checked: &Checked,
    graph: &Graph,
    cycles: u32,
) -> Result<(), Failed>
    requires sink { S.faults out.old < 2 ^ 64 - 1 }
    requires range { IsInRange checked.now graph.now bound.now }
    ensures { Writes S.written S.room S.faults out.old out.new (model.bound_text (names_of checked.now) (map (λ i. i.number) graph.now.insns.items) (bound_of bound.now) cycles) result }
{
    match put_path(out, graph, bound.path, &bound.chain) {
        Ok(()) => put_rest(out, checked, bound.load, bound.value, cycles),
        Err(failed) => Err(failed),
    }
}

/// Writes a bound with what shows it, and the last cycle of a schedule: the greatest tail and the numbers of the instructions of its
/// chain, the unit of the greatest load with its count, span and value, the bound, and the cycles. A prefix is written where the
/// sink fails. It takes no memory. docs/FORMATS.md, 'Answers'.
pub fn write_bound<S: Sink>(
    bound: &Bound,
    checked: &Checked,
    graph: &Graph,
    schedule: &Schedule,
    out: &mut S,
) -> Result<(), Failed>
    requires sink { S.faults out.old < 2 ^ 64 - 1 }
    requires range { IsInRange checked.now graph.now bound.now }
    ensures { Writes S.written S.room S.faults out.old out.new (model.bound_text (names_of checked.now) (map (λ i. i.number) graph.now.insns.items) (bound_of bound.now) (present 0 (slots_of schedule.now.slots.items))) result }
{
    put_bound(out, bound, checked, graph, schedule.last_cycle())
}
