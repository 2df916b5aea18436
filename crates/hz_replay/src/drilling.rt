//! Drawing a trace turn by turn.

ghost use Rattle.std.specs.Prelude.{◌≡◌, ◌+◌, ◌*◌, ◌<◌, ◌≤◌, ◌∷◌, [], length, IfOk, OnErr, Some};
ghost use Rattle.std.specs.List.{range_with_len};
ghost use Rattle.std.specs.Option.{ForSome};
ghost use Rattle.hz_pipeline_model.specs.Traces.Drills as model;
ghost use Rattle.hz_pipeline_model.specs.Traces.Drills.{IsTurn, Drawn};
ghost use Rattle.hz_replay.specs.Drilling.{WalksFrom};
ghost use Rattle.hz_replay.specs.Lines.{event_of};
ghost use Rattle.hz_replay.specs.Traces.{events_in, lines_in};
ghost use Rattle.hz_tables.specs.Machines.{machine_of};
ghost use Rattle.hz_pipeline_model.specs.Tables.Machines.{parts_walk, IsWalked};

use super::event::{Event, What};
use super::replayer::Replayer;
use hz_regexp::NoMemory;
use hz_tables::{Machine, Steps};
use std::alloc::Global;
use std::marker::Brand;
use std::sync::ledger::{Blank, Ledger};

/// The numbers are those of a linear congruential generator.
const MULTIPLIER: u64 = 1_103_515_245;

const INCREMENT: u64 = 12_345;

const MODULUS: u64 = 2_147_483_648;

/// What is drawn are the upper bits of a number.
const UPPER_FROM: u32 = 65_536;

/// The number of the next turn.
fn next_number(number: u32) -> u32
    ensures { result ≡ model.next_number number }
{
    ((u64::from(number) * MULTIPLIER + INCREMENT) % MODULUS) as u32
}

/// The class that the number of a turn draws of so many, None where there are none.
fn draw(classes: u32, number: u32) -> Option<u32>
    ensures drawn { result ≡ model.draw classes number }
    ensures within { ForSome result (λ class. class < classes) }
{
    if classes == 0 {
        return None;
    }
    Some(number / UPPER_FROM % classes)
}

/// The turn that is an advance.
fn advance_one<L: Ledger>(replayer: &mut Replayer<'_>, steps: &mut Steps<L>) -> What
    ensures machine { replayer.new.machine ≡ replayer.old.machine }
    ensures event { result ≡ What.Advance 1 }
    ensures moved { parts_walk replayer.old.machine.parts replayer.old.states (event_of result ∷ []) ≡ Some replayer.new.states }
    ensures cost { steps.new ≤ steps.old + 4 * length replayer.old.machine.parts }
{
    replayer.advance(steps);
    What::Advance(1)
}

/// The turn that draws a class: its issue, or where that is refused an advance.
fn issue_or_advance<L: Ledger>(
    replayer: &mut Replayer<'_>,
    class: u32,
    steps: &mut Steps<L>,
) -> What
    requires class { class < length replayer.old.machine.classes }
    ensures machine { replayer.new.machine ≡ replayer.old.machine }
    ensures turn { IsTurn (WalksFrom replayer.old) [] (Some class) (event_of result) }
    ensures moved { parts_walk replayer.old.machine.parts replayer.old.states (event_of result ∷ []) ≡ Some replayer.new.states }
    ensures cost { steps.new ≤ steps.old + 8 * length replayer.old.machine.parts }
{
    if replayer.issue(class, steps) {
        return What::Issue(class);
    }
    advance_one(replayer, steps)
}

/// The event of a turn, which the replayer takes: the issue of the class that is drawn, or where that is refused or no class is drawn
/// the advance of one cycle.
fn take_turn<L: Ledger>(
    replayer: &mut Replayer<'_>,
    drawn: Option<u32>,
    steps: &mut Steps<L>,
) -> What
    requires class { ForSome drawn (λ class. class < length replayer.old.machine.classes) }
    ensures machine { replayer.new.machine ≡ replayer.old.machine }
    ensures turn { IsTurn (WalksFrom replayer.old) [] drawn (event_of result) }
    ensures moved { parts_walk replayer.old.machine.parts replayer.old.states (event_of result ∷ []) ≡ Some replayer.new.states }
    ensures cost { steps.new ≤ steps.old + 8 * length replayer.old.machine.parts }
{
    match drawn {
        Some(class) => issue_or_advance(replayer, class, steps),
        None => advance_one(replayer, steps),
    }
}

/// Draws the trace of so many turns from where the replayer stands, over a machine of so many classes, and leaves the replayer where
/// the trace ends. One turn is one event, and its line is its place counted from 1. No memory is taken but that of the events, and at
/// most eight steps for each part and each turn: four to try the issue, and four to advance where it is refused. If memory ran out the
/// replayer stands where it did. Source: this profile, docs/RULES.md, 'Drills'.
pub fn drill_from<L: Ledger>(
    alloc: Global,
    replayer: &mut Replayer<'_>,
    classes: u32,
    number: u32,
    turns: u32,
    steps: &mut Steps<L>,
) -> Result<Vec<Event>, NoMemory>
    requires classes { classes ≡ length replayer.old.machine.classes }
    requires each { length replayer.old.states ≡ length replayer.old.machine.parts }
    ensures machine { replayer.new.machine ≡ replayer.old.machine }
    ensures stays { OnErr result (replayer.new ≡ replayer.old) }
    ensures drawn { IfOk result (λ events. Drawn (WalksFrom replayer.old) classes number turns (events_in events.items)) }
    ensures states { IfOk result (λ events. parts_walk replayer.old.machine.parts replayer.old.states (events_in events.items) ≡ Some replayer.new.states) }
    ensures lines { IfOk result (λ events. lines_in events.items ≡ range_with_len 1 turns) }
    ensures cost { steps.new ≤ steps.old + 8 * length replayer.old.machine.parts * turns }
{
    let mut events = Vec::with_capacity(alloc, turns as usize)?;
    let mut present = number;
    for turn in 0..turns {
        present = next_number(present);
        let what = take_turn(replayer, draw(classes, present), steps);
        events.push(Event {
            line: turn + 1,
            what,
        })?;
    }
    Ok(events)
}

/// The same from the start of every part, whose steps nobody counts.
fn drill_uncounted<L: Ledger>(
    alloc: Global,
    machine: &Machine,
    number: u32,
    turns: u32,
    blank: Blank,
) -> Result<Vec<Event>, NoMemory>
    requires name { blank.name ≡ L.name }
    requires parts { blank.parts ≡ L.parts }
    requires some { 0 < blank.parts }
    ensures drawn { IfOk result (λ events. Drawn (IsWalked (machine_of machine.now)) (length machine.now.classes.items) number turns (events_in events.items)) }
    ensures lines { IfOk result (λ events. lines_in events.items ≡ range_with_len 1 turns) }
{
    let mut steps = Steps::<L>::new(blank);
    let mut replayer = Replayer::start(alloc, machine);
    drill_from(
        alloc,
        &mut replayer,
        machine.classes.len() as u32,
        number,
        turns,
        &mut steps,
    )
}

/// The trace of so many turns that is drawn from a number over what the machine walks: each turn is the issue of the class that is
/// drawn where it is walked after the turns before it, else the advance of one cycle, and so is every turn without classes. One turn
/// is one event, and its line is its place counted from 1. Source: this profile, docs/RULES.md, 'Drills'.
pub fn drill(
    alloc: Global,
    machine: &Machine,
    number: u32,
    turns: u32,
) -> Result<Vec<Event>, NoMemory>
    ensures drawn { IfOk result (λ events. Drawn (IsWalked (machine_of machine.now)) (length machine.now.classes.items) number turns (events_in events.items)) }
    ensures lines { IfOk result (λ events. lines_in events.items ≡ range_with_len 1 turns) }
{
    drill_uncounted::<Brand>(alloc, machine, number, turns, Blank::new(1))
}
