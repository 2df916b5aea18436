//! Schedules of blocks on the machines of descriptions, their traces, and what a replay answers of them.

ghost use Rattle.std.specs.Prelude.{◌≡◌, ◌≤◌, ◌<◌, ◌^◌, length, All};
ghost use Rattle.hz_pipeline_model.specs.Traces.TraceLimits.{advance_limit};
ghost use Rattle.hz_pipeline_model.specs.Accepting.Asking.{IsOfQuery};
ghost use Rattle.hz_pipeline_model.specs.Accepting.Events.{cycles_of, IsOfClass};
ghost use Rattle.hz_pipeline_model.specs.Tables.MachineNames.{names_of_machine};
ghost use Rattle.hz_replay.specs.Traces.{events_in};
ghost use Rattle.hz_tables.specs.Machines.{machine_of};

use crate::texts::given::{Given, read_given};
use hz_auto::compile;
use hz_checked::Checked;
use hz_depend::{Graph, graph};
use hz_replay::{Event, Outcome, What, replay};
use hz_rtl::Block;
use hz_sched::{Slot, schedule, spell};
use hz_tables::{Machine, Steps};
use std::alloc::Global;
use std::fmt::Write;
use std::marker::Brand;
use std::sync::ledger::{Blank, Ledger};

/// The outcome of events over a machine, whose steps nobody counts.
fn outcome_of<L: Ledger>(
    alloc: Global,
    machine: &Machine,
    events: &[Event],
    blank: Blank,
) -> Outcome
    requires name { blank.name ≡ L.name }
    requires parts { blank.parts ≡ L.parts }
    requires some { 0 < blank.parts }
    requires classes { All (IsOfClass (length machine.now.classes.items)) (events_in events.now) }
    requires asks { All (IsOfQuery (names_of_machine (machine_of machine.now)).queries) (events_in events.now) }
    requires short { cycles_of (events_in events.now) ≤ advance_limit }
    requires few { length events.now < 2 ^ 32 }
{
    let mut steps = Steps::<L>::new(blank);
    replay(alloc, machine, events, &mut steps)
}

/// The name of a class.
fn class_name(machine: &Machine, class: u32) -> Option<&str> {
    str::from_utf8(machine.classes.get(class as usize)?.bytes()).ok()
}

/// Writes each slot: its cycle, and the number and class of its instruction.
fn write_slots(out: &mut String, machine: &Machine, graph: &Graph, slots: &[Slot]) -> Option<()> {
    for slot in slots {
        let insn = graph.insns.get(slot.place as usize)?;
        let class = class_name(machine, insn.class)?;
        write!(out, "{} {} {class} / ", slot.cycle, insn.number).ok()?;
    }
    out.push_str("| ").ok()
}

/// Writes an event: its line, and the class of an issue or the cycles of an advance.
pub(crate) fn write_event(out: &mut String, machine: &Machine, event: &Event) -> Option<()> {
    write!(out, "{}:", event.line).ok()?;
    match event.what {
        What::Issue(class) => out.push_str(class_name(machine, class)?).ok()?,
        What::Advance(cycles) => write!(out, "+{cycles}").ok()?,
        What::Ask { .. } => return None,
    }
    out.push(' ').ok()
}

/// Writes events.
fn write_events(out: &mut String, machine: &Machine, events: &[Event]) -> Option<()> {
    for event in events {
        write_event(out, machine, event)?;
    }
    out.push_str("| ").ok()
}

/// Writes the schedule of a block on the machine of a description, its trace, and what a replay of the trace answers.
fn write_schedule(alloc: Global, out: &mut String, checked: &Checked, block: &Block) -> Option<()>
    requires { length block.now.insns.items ≤ 4096 }
{
    let Ok(compiled) = compile(alloc, checked) else {
        return None;
    };
    let Ok(graph) = graph(alloc, checked, block) else {
        return None;
    };
    let made = match schedule(alloc, &compiled.machine, &graph) {
        Ok(made) => made,
        Err(fault) => return write!(out, "{fault}").ok(),
    };
    let Ok(events) = spell(alloc, &made, &graph) else {
        return None;
    };
    let outcome = outcome_of::<Brand>(alloc, &compiled.machine, &events, Blank::new(1));
    write_slots(out, &compiled.machine, &graph, &made.slots)?;
    write_events(out, &compiled.machine, &events)?;
    write!(out, "{outcome:?}").ok()
}

/// The schedule of a block on the machine of the description beside.
pub fn answer(alloc: Global, text: &str, beside: &str) -> Option<String> {
    let Given { checked, block } = read_given(alloc, text.as_bytes(), beside.as_bytes())?;
    if block.insns.len() > 4096 {
        return None;
    }
    let mut out = String::new(alloc);
    write_schedule(alloc, &mut out, &checked, &block)?;
    Some(out)
}
