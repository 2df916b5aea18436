//! The trace of a schedule.

ghost use Rattle.std.specs.Prelude.{◌≡◌, ◌+◌, ◌*◌, ◌<◌, ◌≤◌, ◌^◌, ◌++◌, ◌∷◌, [], ℕ, length, All, IfOk, OnOk};
ghost use Rattle.std.specs.List.{range_with_len};
ghost use Rattle.hz_replay.specs.Lines.{event_of};
ghost use Rattle.hz_replay.specs.Traces.{events_in, lines_in};
ghost use Rattle.hz_block_model.specs.Scheduling.Schedules as model;
ghost use Rattle.hz_sched.specs.Shape.{graph_of, slots_of, AreNumbered};

use crate::naming::class_at;
use crate::parts::Schedule;
use hz_depend::Graph;
use hz_regexp::NoMemory;
use hz_replay::{Event, What};
use std::alloc::Global;

/// Adds an event at the end, on the next line.
fn add(events: &mut Vec<Event>, what: What) -> Result<(), NoMemory>
    requires short { length events.old.items + 1 < 2 ^ 32 }
    requires numbered { AreNumbered events.old.items }
    ensures events { OnOk result (events_in events.new.items ≡ events_in events.old.items ++ event_of what ∷ []) }
    ensures numbered { OnOk result (AreNumbered events.new.items) }
    ensures size { OnOk result (length events.new.items ≡ length events.old.items + 1) }
{
    let line = events.len() as u32 + 1;
    events.push(Event { line, what })?;
    Ok(())
}

/// Adds the advance from one cycle to another, where that is later.
fn add_advance(events: &mut Vec<Event>, cycle: u32, later: u32) -> Result<(), NoMemory>
    requires short { length events.old.items + 1 < 2 ^ 32 }
    requires numbered { AreNumbered events.old.items }
    ensures events { OnOk result (events_in events.new.items ≡ events_in events.old.items ++ model.advance_to cycle later) }
    ensures numbered { OnOk result (AreNumbered events.new.items) }
    ensures size { OnOk result (length events.new.items ≤ length events.old.items + 1) }
{
    if cycle < later {
        add(events, What::Advance(later - cycle))?;
    }
    Ok(())
}

/// The trace of a schedule: for each slot the advance to its cycle, where that is later than the one before, and the issue of
/// the instruction's class. Each event has its own line, from 1.
pub fn spell(alloc: Global, schedule: &Schedule, graph: &Graph) -> Result<Vec<Event>, NoMemory>
    requires places { All (λ x. x.place < length graph.now.insns.items) schedule.now.slots.items }
    requires few { length schedule.now.slots.items < 2 ^ 31 }
    ensures spelled { IfOk result (λ events. events_in events.items ≡ model.spell (graph_of graph.now) (slots_of schedule.now.slots.items)) }
    ensures lines { IfOk result (λ events. AreNumbered events.items) }
{
    let mut events = Vec::new(alloc);
    let mut present = 0;
    for slot in &schedule.slots {
        add_advance(&mut events, present, slot.cycle)?;
        add(&mut events, What::Issue(class_at(graph, slot.place)))?;
        present = slot.cycle;
    }
    Ok(events)
}
