//! Writing a replay, for which the parts that are asked are walked once more.

ghost use Rattle.std.specs.Prelude.{◌≡◌, ℕ, ◌-◌, ◌^◌, ◌<◌, ◌≤◌, All, IsSome, length, drop, take, slice_index_or, codes, decimal, if◌then◌else◌};
ghost use Rattle.std.specs.Bool.{OnFalse};
ghost use Rattle.hz_pipeline_model.specs.Accepting.Asking.{IsOfQuery};
ghost use Rattle.hz_pipeline_model.specs.Accepting.Events.{issue, IsOfClass};
ghost use Rattle.hz_front_model.specs.Asks.{query_name};
ghost use Rattle.hz_front_model.specs.Texts as model;
ghost use Rattle.hz_pipeline_model.specs.Tables.MachineNames.{names_of_machine};
ghost use Rattle.hz_pipeline_model.specs.Tables.Machines.{machine_walk, part_at, starts_of};
ghost use Rattle.hz_io.specs.Pages.{Adds};
ghost use Rattle.hz_io.specs.Sink.{Writes};
ghost use Rattle.hz_replay.specs.Lines.{event_of};
ghost use Rattle.hz_replay.specs.Traces.{events_in};
ghost use Rattle.hz_replay.specs.declared.outcome.Outcome.TheVariants.{Refused};
ghost use Rattle.hz_report.specs.PartsAfter.{AreAfter};
ghost use Rattle.hz_report.specs.Replays.{AsksNothing, asks_from, end_line, line_of, no_event, refused_by, replay_text, states_from, taken, IsReplay};
ghost use Rattle.hz_tables.specs.Machines.{machine_of};

use super::outcomes::{put_accepted, put_refused};
use super::parts_after::{PartAfter, ask_after, in_start};
use hz_io::page::{Page, add, flush};
use hz_io::{Failed, Sink};
use hz_regexp::Name;
use hz_replay::{Event, Outcome, What};
use hz_tables::{Machine, Steps};
use itoa::Buffer;
use std::marker::Brand;
use std::sync::ledger::{Blank, Ledger};

/// Adds the end of the line of an ask.
fn add_reported<S: Sink>(out: &mut S, page: &mut Page, reserved: bool) -> Result<(), Failed>
    requires { S.faults out.old < 2 ^ 64 - 1 }
    ensures { Adds S.written S.room S.faults out.old out.new page.old.items page.new.items (if reserved then codes " reserved\n" else codes " free\n") result }
{
    if reserved {
        add(out, page, b" reserved\n")
    } else {
        add(out, page, b" free\n")
    }
}

/// Adds the digits of a number.
fn add_number<S: Sink>(out: &mut S, page: &mut Page, number: u32) -> Result<(), Failed>
    requires { S.faults out.old < 2 ^ 64 - 1 }
    ensures { Adds S.written S.room S.faults out.old out.new page.old.items page.new.items (decimal number) result }
{
    let mut digits = Buffer::new();
    add(out, page, digits.format(number).as_bytes())
}

/// Adds a name.
fn add_name<S: Sink>(out: &mut S, page: &mut Page, name: &Name) -> Result<(), Failed>
    requires { S.faults out.old < 2 ^ 64 - 1 }
    ensures { Adds S.written S.room S.faults out.old out.new page.old.items page.new.items name.now result }
{
    add(out, page, name.bytes())
}

/// Adds the line of an ask.
fn add_answer<S: Sink>(
    out: &mut S,
    page: &mut Page,
    line: u32,
    unit: &Name,
    reserved: bool,
) -> Result<(), Failed>
    requires { S.faults out.old < 2 ^ 64 - 1 }
    ensures { Adds S.written S.room S.faults out.old out.new page.old.items page.new.items (model.ask_line line unit.now reserved) result }
{
    add(out, page, b"ask line ")?;
    add_number(out, page, line)?;
    add(out, page, b" ")?;
    add_name(out, page, unit)?;
    add_reported(out, page, reserved)
}

/// The name of a unit that is asked for.
fn unit_of(machine: &Machine, part: u32, ask: u32) -> &Name
    requires part { part < length machine.now.parts.items }
    requires ask { ask < length (part_at (machine_of machine.now) part).asks }
    ensures { result.now ≡ query_name (names_of_machine (machine_of machine.now)) part ask }
{
    &machine.parts[part as usize].asks[ask as usize]
}

/// Adds what is reported of the event at a place of a trace: the line of an ask.
fn add_event<S: Sink, L: Ledger>(
    out: &mut S,
    page: &mut Page,
    machine: &Machine,
    parts: &mut [PartAfter; 16],
    events: &[Event],
    place: usize,
    steps: &mut Steps<L>,
) -> Result<(), Failed>
    requires sink { S.faults out.old < 2 ^ 64 - 1 }
    requires place { place < length events.now }
    requires classes { All (IsOfClass (length machine.now.classes.items)) (events_in events.now) }
    requires asks { IsOfQuery (names_of_machine (machine_of machine.now)).queries (event_of (slice_index_or events.now place no_event).what) }
    requires walked { IsSome (machine_walk (machine_of machine.now) (events_in events.now)) }
    requires beyond { AreAfter (machine_of machine.now) events.now place parts.old }
    ensures beyond { AreAfter (machine_of machine.now) events.now place parts.new }
    ensures added { Adds S.written S.room S.faults out.old out.new page.old.items page.new.items (line_of (machine_of machine.now) (states_from (machine_of machine.now) (starts_of (machine_of machine.now)) (take place events.now)) (slice_index_or events.now place no_event)) result }
{
    let event = &events[place];
    match event.what {
        What::Ask { part, ask } => {
            let reserved = ask_after(machine, parts, events, place, part, ask, steps);
            add_answer(out, page, event.line, unit_of(machine, part, ask), reserved)
        }
        What::Issue(_) | What::Advance(_) => Ok(()),
    }
}

/// Adds the lines of the asks among events, which the machine walks from the start of every part. Only parts that are asked are
/// walked.
fn add_asks<S: Sink, L: Ledger>(
    out: &mut S,
    page: &mut Page,
    machine: &Machine,
    events: &[Event],
    blank: Blank,
) -> Result<(), Failed>
    requires name { blank.name ≡ L.name }
    requires parts { blank.parts ≡ L.parts }
    requires some { 0 < blank.parts }
    requires sink { S.faults out.old < 2 ^ 64 - 1 }
    requires classes { All (IsOfClass (length machine.now.classes.items)) (events_in events.now) }
    requires asks { All (IsOfQuery (names_of_machine (machine_of machine.now)).queries) (events_in events.now) }
    requires walked { IsSome (machine_walk (machine_of machine.now) (events_in events.now)) }
    ensures { Adds S.written S.room S.faults out.old out.new page.old.items page.new.items (asks_from (machine_of machine.now) (starts_of (machine_of machine.now)) events.now) result }
{
    let mut steps = Steps::<L>::new(blank);
    let mut parts = in_start();
    for place in 0..events.len() {
        match add_event(out, page, machine, &mut parts, events, place, &mut steps) {
            Ok(()) => {}
            Err(failed) => return Err(failed),
        }
    }
    Ok(())
}

/// Writes the lines of the asks among events.
fn put_asks<S: Sink>(out: &mut S, machine: &Machine, events: &[Event]) -> Result<(), Failed>
    requires sink { S.faults out.old < 2 ^ 64 - 1 }
    requires classes { All (IsOfClass (length machine.now.classes.items)) (events_in events.now) }
    requires asks { All (IsOfQuery (names_of_machine (machine_of machine.now)).queries) (events_in events.now) }
    requires walked { IsSome (machine_walk (machine_of machine.now) (events_in events.now)) }
    ensures { Writes S.written S.room S.faults out.old out.new (asks_from (machine_of machine.now) (starts_of (machine_of machine.now)) events.now) result }
{
    let mut page = Page::new();
    match add_asks::<S, Brand>(out, &mut page, machine, events, Blank::new(1)) {
        Ok(()) => flush(out, &mut page),
        Err(failed) => Err(failed),
    }
}

/// The events before the one that is refused, or all.
fn taken_of<'a>(events: &'a [Event], outcome: &Outcome) -> &'a [Event]
    requires { (event : ℕ) → outcome.now ≡ Refused event → event < length events.now }
    ensures { result.now ≡ taken outcome.now events.entry.now }
{
    match outcome {
        Outcome::Accepted { .. } => events,
        Outcome::Refused { event } => &events[..*event as usize],
    }
}

/// Whether an event is an ask.
fn is_ask(what: What) -> bool
    ensures { OnFalse result (AsksNothing (event_of what)) }
{
    match what {
        What::Ask { .. } => true,
        What::Issue(_) | What::Advance(_) => false,
    }
}

/// How many events there are up to the last ask.
fn up_to_last_ask(events: &[Event]) -> usize
    ensures within { result ≤ length events.now }
    ensures none { All (λ event. AsksNothing (event_of event.what)) (drop result events.now) }
{
    for place in (0..events.len()).rev() {
        if is_ask(events[place].what) {
            return place + 1;
        }
    }
    0
}

/// Writes the line of an event that is refused, an issue.
fn put_refusal<S: Sink>(out: &mut S, machine: &Machine, event: &Event) -> Result<(), Failed>
    requires sink { S.faults out.old < 2 ^ 64 - 1 }
    requires issue { (class : ℕ) × (event_of event.now.what ≡ issue class) × (class < length machine.now.classes.items) }
    ensures { Writes S.written S.room S.faults out.old out.new (refused_by machine.now.classes.items event.now) result }
{
    match event.what {
        What::Issue(class) => put_refused(out, event.line, &machine.classes[class as usize]),
        What::Advance(_) | What::Ask { .. } => unreachable!(),
    }
}

/// Writes how a replay ends.
fn put_end<S: Sink>(
    out: &mut S,
    machine: &Machine,
    events: &[Event],
    outcome: &Outcome,
) -> Result<(), Failed>
    requires sink { S.faults out.old < 2 ^ 64 - 1 }
    requires replay { IsReplay machine.now events.now outcome.now }
    ensures { Writes S.written S.room S.faults out.old out.new (end_line machine.now.classes.items events.now outcome.now) result }
{
    match outcome {
        Outcome::Accepted { issues, cycles } => put_accepted(out, *issues, *cycles),
        Outcome::Refused { event } => put_refusal(out, machine, &events[*event as usize]),
    }
}

/// Writes the text of a replay: all of it, or a front of it if the sink failed, with one more fault. The machine has the names of its
/// classes and of its units that are asked for, the events their lines. The parts that are asked are walked once more up to their last
/// ask. It takes no memory. Source: this profile, docs/FORMATS.md, 'Answers'.
pub fn write_replay<S: Sink>(
    machine: &Machine,
    events: &[Event],
    outcome: &Outcome,
    out: &mut S,
) -> Result<(), Failed>
    requires sink { S.faults out.old < 2 ^ 64 - 1 }
    requires replay { IsReplay machine.now events.now outcome.now }
    ensures { Writes S.written S.room S.faults out.old out.new (replay_text (machine_of machine.now) events.now outcome.now) result }
{
    let before = taken_of(events, outcome);
    let asked = &before[..up_to_last_ask(before)];
    match put_asks(out, machine, asked) {
        Ok(()) => put_end(out, machine, events, outcome),
        Err(failed) => Err(failed),
    }
}
