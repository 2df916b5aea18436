//! The phases of `drill`, in their order: the description, its machine, and the trace that is drawn over it.

ghost use Rattle.std.specs.Prelude.{◌≡◌, ◌<◌, ◌^◌, IfOk, Some, length};
ghost use Rattle.hz_pipeline_model.specs.Accepting.Events.{issues_of};
ghost use Rattle.hz_answer_model.specs.Answers.{DrillsDescription};
ghost use Rattle.hz_front_model.specs.Descriptions.{HasDescription};
ghost use Rattle.hz_pipeline_model.specs.Traces.Drills.{Drawn};
ghost use Rattle.hz_replay.specs.Lines.{event_of};
ghost use Rattle.hz_replay.specs.Replaying.{issues_in};
ghost use Rattle.hz_replay.specs.Traces.{events_in};
ghost use Rattle.hz_tables.specs.Machines.{machine_of};
ghost use Rattle.hz_pipeline_model.specs.Tables.Machines.{machine_walk, IsWalked};
ghost use Rattle.hz_tool.specs.Deciding.{Decides};

use crate::done::Done;
use crate::phases::compiling::judge_compiled;
use hz_front::refusal::Refusal;
use hz_regexp::NoMemory;
use hz_replay::{Event, Replayer, What, drill_from};
use hz_tables::{Machine, Steps};
use hz_tool_words::order::DrillOrder;
use std::alloc::Global;
use std::marker::Brand;
use std::sync::ledger::{Blank, Ledger};

/// The trace of a drill, and the states that it leaves.
#[derive(Drop)]
struct Drilled {
    events: Vec<Event>,
    states: Vec<u32>,
}

/// The drill of an order over a machine, whose steps nobody counts.
fn drilled_on<L: Ledger>(
    alloc: Global,
    machine: &Machine,
    order: &DrillOrder<'_>,
    blank: Blank,
) -> Result<Drilled, NoMemory>
    requires name { blank.name ≡ L.name }
    requires parts { blank.parts ≡ L.parts }
    requires some { 0 < blank.parts }
    ensures drawn { IfOk result (λ drilled. Drawn (IsWalked (machine_of machine.now)) (length machine.now.classes.items) order.now.number order.now.turns (events_in drilled.events.items)) }
    ensures left { IfOk result (λ drilled. machine_walk (machine_of machine.now) (events_in drilled.events.items) ≡ Some drilled.states.items) }
{
    let mut steps = Steps::<L>::new(blank);
    let mut replayer = Replayer::start(alloc, machine);
    let events = drill_from(
        alloc,
        &mut replayer,
        machine.classes.len() as u32,
        order.number,
        order.turns,
        &mut steps,
    )?;
    let states = Vec::from_slice(alloc, replayer.states())?;
    Ok(Drilled { events, states })
}

/// 1 for an issue, and 0 for advances and asks.
fn issues_at(what: What) -> u64
    ensures { result ≡ issues_in (event_of what) }
{
    match what {
        What::Issue(_) => 1,
        What::Advance(_) | What::Ask { .. } => 0,
    }
}

/// How many of the events are issues.
fn count_issues(events: &[Event]) -> u64
    ensures { result ≡ issues_of (events_in events.now) }
{
    let mut issues = 0;
    for event in events {
        issues += issues_at(event.what);
    }
    issues
}

/// The drill of the text of a description, or a refusal.
pub fn judge_drill<'a>(
    alloc: Global,
    order: &DrillOrder<'a>,
    described: &[u8],
) -> Result<Done, Refusal<'a>>
    requires { length described.now < 2 ^ 32 }
    ensures { Decides (HasDescription order.now.description.now described.now (DrillsDescription order.now.description.now order.now.number order.now.turns)) result }
{
    let front = judge_compiled(alloc, order.description, described)?;
    let machine = &front.compiled.machine;
    let Ok(drilled) = drilled_on::<Brand>(alloc, machine, order, Blank::new(1)) else {
        return Err(Refusal::Memory);
    };
    let issues = count_issues(&drilled.events);
    Ok(Done::Drilled {
        turns: order.turns,
        issues,
        cycles: u64::from(order.turns) - issues,
        states: drilled.states,
    })
}
