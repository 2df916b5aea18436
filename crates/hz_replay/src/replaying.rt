//! Replaying a whole trace.

ghost use Rattle.std.specs.Prelude.{◌≡◌, ◌+◌, ◌*◌, ◌<◌, ◌≤◌, ◌^◌, ◌∷◌, [], length, All, Some, None};
ghost use Rattle.std.specs.Bool.{OnTrue, OnFalse};
ghost use Rattle.hz_pipeline_model.specs.Traces.TraceLimits.{advance_limit};
ghost use Rattle.hz_pipeline_model.specs.Accepting.Events.{advance, issues_of, cycles_of, IsOfClass};
ghost use Rattle.hz_pipeline_model.specs.Accepting.Asking.{IsOfQuery};
ghost use Rattle.hz_pipeline_model.specs.Tables.Machines.{parts_walk};
ghost use Rattle.hz_pipeline_model.specs.Tables.MachineNames.{names_of_machine};
ghost use Rattle.hz_tables.specs.Machines.{machine_of};
ghost use Rattle.hz_replay.specs.Lines.{event_of};
ghost use Rattle.hz_replay.specs.Traces.{events_in};
ghost use Rattle.hz_replay.specs.Replaying.{IsOutcome, IsIssue, issues_in, cycles_of_one};

use super::event::{Event, What};
use super::outcome::Outcome;
use super::replayer::Replayer;
use hz_tables::{Machine, Steps};
use std::alloc::Global;
use std::sync::ledger::Ledger;

/// So many cycles, one after the other.
fn advance_by<L: Ledger>(replayer: &mut Replayer<'_>, cycles: u32, steps: &mut Steps<L>)
    requires { length replayer.old.states ≡ length replayer.old.machine.parts }
    ensures machine { replayer.new.machine ≡ replayer.old.machine }
    ensures taken { parts_walk replayer.old.machine.parts replayer.old.states (advance cycles ∷ []) ≡ Some replayer.new.states }
    ensures cost { steps.new ≤ steps.old + 4 * length replayer.old.machine.parts * cycles }
{
    for _cycle in 0..cycles {
        replayer.advance(steps);
    }
}

/// One event: true if it is taken; false, only at an issue, changes nothing. An ask leaves the states. It takes no memory,
/// and at most four steps for each part and each issue or cycle.
pub fn play<L: Ledger>(replayer: &mut Replayer<'_>, what: What, steps: &mut Steps<L>) -> bool
    requires class { IsOfClass (length replayer.old.machine.classes) (event_of what) }
    requires each { length replayer.old.states ≡ length replayer.old.machine.parts }
    ensures machine { replayer.new.machine ≡ replayer.old.machine }
    ensures taken { OnTrue result (parts_walk replayer.old.machine.parts replayer.old.states (event_of what ∷ []) ≡ Some replayer.new.states) }
    ensures refused { OnFalse result (parts_walk replayer.old.machine.parts replayer.old.states (event_of what ∷ []) ≡ None) }
    ensures stays { OnFalse result (replayer.new ≡ replayer.old) }
    ensures issue { OnFalse result (IsIssue (event_of what)) }
    ensures cost { steps.new ≤ steps.old + 4 * length replayer.old.machine.parts * (issues_in (event_of what) + cycles_of_one (event_of what)) }
{
    match what {
        What::Issue(class) => replayer.issue(class, steps),
        What::Advance(cycles) => {
            advance_by(replayer, cycles, steps);
            true
        }
        What::Ask { part: _, ask: _ } => true,
    }
}

/// 1 for an issue, and 0 for advances and asks.
fn issues_at(what: What) -> u64
    ensures { result ≡ issues_in (event_of what) }
{
    match what {
        What::Issue(_) => 1,
        What::Advance(_) => 0,
        What::Ask { part: _, ask: _ } => 0,
    }
}

/// The cycles that an event advances.
fn cycles_at(what: What) -> u64
    ensures { result ≡ cycles_of_one (event_of what) }
{
    match what {
        What::Issue(_) => 0,
        What::Advance(cycles) => u64::from(cycles),
        What::Ask { part: _, ask: _ } => 0,
    }
}

/// Replays events from the start of every part: all are walked, with how many issues and cycle advances there are, or
/// the first that is not. Asks leave the states. It takes no memory, and at most four steps for each part and each issue
/// or cycle.
pub fn replay<L: Ledger>(
    alloc: Global,
    machine: &Machine,
    events: &[Event],
    steps: &mut Steps<L>,
) -> Outcome
    requires classes { All (IsOfClass (length machine.now.classes.items)) (events_in events.now) }
    requires asks { All (IsOfQuery (names_of_machine (machine_of machine.now)).queries) (events_in events.now) }
    requires short { cycles_of (events_in events.now) ≤ advance_limit }
    requires few { length events.now < 2 ^ 32 }
    ensures outcome { IsOutcome (machine_of machine.now) (events_in events.now) result }
    ensures cost { steps.new ≤ steps.old + 4 * length machine.now.parts.items * (issues_of (events_in events.now) + cycles_of (events_in events.now)) }
{
    let mut replayer = Replayer::start(alloc, machine);
    let mut issues = 0;
    let mut cycles = 0;
    for (place, event) in events.iter().enumerate() {
        if !play(&mut replayer, event.what, steps) {
            return Outcome::Refused {
                event: place as u32,
            };
        }
        issues += issues_at(event.what);
        cycles += cycles_at(event.what);
    }
    Outcome::Accepted { issues, cycles }
}
