//! Parts of a machine that are walked on only where a unit of theirs is asked for.

ghost use Rattle.std.specs.Prelude.{◌≡◌, ◌<◌, ◌≤◌, ◌∷◌, [], All, IsSome, length, replicate, take};
ghost use Rattle.hz_pipeline_model.specs.Accepting.Events.{advance, IsOfClass};
ghost use Rattle.hz_pipeline_model.specs.Tables.Machines.{machine_walk, part_at, part_walk, starts_of, states_tell};
ghost use Rattle.hz_replay.specs.Lines.{event_of};
ghost use Rattle.hz_replay.specs.Traces.{events_in};
ghost use Rattle.hz_report.specs.PartsAfter.{start, AreAfter};
ghost use Rattle.hz_report.specs.Replays.{states_from};
ghost use Rattle.hz_tables.specs.Machines.{machine_of};

use hz_replay::{Event, What};
use hz_tables::{Machine, Steps};
use std::sync::ledger::Ledger;

/// The state of a part after so many events of a trace.
#[derive(Clone, Copy)]
pub struct PartAfter {
    state: u32,
    events: usize,
}

/// The start of a part, after no event.
const START: PartAfter = PartAfter {
    state: 0,
    events: 0,
};

/// As many starts as a machine may have parts.
pub fn in_start() -> [PartAfter; 16]
    ensures { result ≡ replicate 16 start }
{
    [START; 16]
}

/// The state of a part so many cycles later; None where it has none.
fn advance_by<L: Ledger>(
    machine: &Machine,
    part: u32,
    from: u32,
    cycles: u32,
    steps: &mut Steps<L>,
) -> Option<u32>
    requires part { part < length machine.now.parts.items }
    requires from { from < length (part_at (machine_of machine.now) part).rows }
    ensures { result ≡ part_walk (part_at (machine_of machine.now) part) from (advance cycles ∷ []) }
{
    let mut state = from;
    for _cycle in 0..cycles {
        match machine.step(part, state, None, steps) {
            Some(next) => state = next,
            None => return None,
        }
    }
    Some(state)
}

/// The state of a part after one event, None where it has none. An ask leaves it.
fn step_at<L: Ledger>(
    machine: &Machine,
    part: u32,
    from: u32,
    what: What,
    steps: &mut Steps<L>,
) -> Option<u32>
    requires part { part < length machine.now.parts.items }
    requires from { from < length (part_at (machine_of machine.now) part).rows }
    requires class { IsOfClass (length machine.now.classes.items) (event_of what) }
    ensures { result ≡ part_walk (part_at (machine_of machine.now) part) from (event_of what ∷ []) }
{
    match what {
        What::Issue(class) => machine.step(part, from, Some(class), steps),
        What::Advance(cycles) => advance_by(machine, part, from, cycles, steps),
        What::Ask { part: _, ask: _ } => Some(from),
    }
}

/// The state of a part after events; None where it has none.
fn walk_on<L: Ledger>(
    machine: &Machine,
    part: u32,
    from: u32,
    events: &[Event],
    steps: &mut Steps<L>,
) -> Option<u32>
    requires part { part < length machine.now.parts.items }
    requires from { from < length (part_at (machine_of machine.now) part).rows }
    requires classes { All (IsOfClass (length machine.now.classes.items)) (events_in events.now) }
    ensures { result ≡ part_walk (part_at (machine_of machine.now) part) from (events_in events.now) }
{
    let mut state = from;
    for event in events {
        match step_at(machine, part, state, event.what, steps) {
            Some(next) => state = next,
            None => return None,
        }
    }
    Some(state)
}

/// Whether a unit of a part that is asked for is reserved after so many events of a trace. The part is walked on to there.
pub fn ask_after<L: Ledger>(
    machine: &Machine,
    parts: &mut [PartAfter; 16],
    events: &[Event],
    count: usize,
    part: u32,
    ask: u32,
    steps: &mut Steps<L>,
) -> bool
    requires part { part < length machine.now.parts.items }
    requires ask { ask < length (part_at (machine_of machine.now) part).asks }
    requires count { count ≤ length events.now }
    requires classes { All (IsOfClass (length machine.now.classes.items)) (events_in events.now) }
    requires walked { IsSome (machine_walk (machine_of machine.now) (events_in events.now)) }
    requires beyond { AreAfter (machine_of machine.now) events.now count parts.old }
    ensures beyond { AreAfter (machine_of machine.now) events.now count parts.new }
    ensures reserved { result ≡ states_tell (machine_of machine.now) (states_from (machine_of machine.now) (starts_of (machine_of machine.now)) (take count events.now)) part ask }
{
    let at = part as usize;
    let PartAfter {
        state,
        events: before,
    } = parts[at];
    let Some(present) = walk_on(machine, part, state, &events[before..count], steps) else {
        unreachable!()
    };
    parts[at] = PartAfter {
        state: present,
        events: count,
    };
    machine.ask(part, present, ask, steps)
}
