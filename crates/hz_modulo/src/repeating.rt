//! The first two starts of turns at which a machine is in the same states.

ghost use Rattle.std.specs.Prelude.{◌≡◌, ◌↔◌, ◌<◌, ◌≤◌, ◌-◌, ◌+◌, ◌++◌, ◌∷◌, [], ℕ, IsTrue, IfOk, IfSome, IfNone, length, map, All, nat_lt, if◌then◌else◌, true, is_some};
ghost use Rattle.std.specs.Bool.{OnTrue, OnFalse};
ghost use Rattle.hz_block_model.specs.Scheduling.Machines.{Settles};
ghost use Rattle.hz_pipeline_model.specs.Tables.Machines.{starts_of};
ghost use Rattle.hz_measure_model.specs.Kernels.Repeats.{stage_limit};
ghost use Rattle.hz_tables.specs.Machines.{machine_of};
ghost use Rattle.hz_modulo.specs.Walking.{kernel_slot_of, graph_of};
ghost use Rattle.hz_modulo.specs.Repeating.{edge_by, drain_by, RepeatsBy, MeetsBy, lists_in, states_at};

use crate::parts::{KernelSlot, Repeat};
use crate::walking::{drains, walk_interval};
use hz_replay::Replayer;
use hz_tables::{Machine, NoMemory, Steps};
use std::alloc::Global;
use std::marker::Brand;
use std::sync::ledger::{Blank, Ledger};

/// Within how many turns the states have to repeat.
const MOST_TURNS: u32 = 1_024;

/// Whether two lists of states are the same.
fn are_same(one: &[u32], other: &[u32]) -> bool
    ensures { IsTrue result ↔ (one.now ≡ other.now) }
{
    one == other
}

/// The first of these at which the states are.
fn place_of(held: &[Vec<u32>], states: &[u32]) -> Option<u32>
    requires few { length held.now ≤ 4096 }
    ensures found { IfSome result (λ i. (i < length (lists_in held.now)) × (states_at (lists_in held.now) i ≡ states.now)) }
    ensures none { IfNone result ((i : ℕ) → i < length (lists_in held.now) → states_at (lists_in held.now) i ≡ states.now → ⊥) }
{
    for place in 0..held.len() as u32 {
        if are_same(held[place as usize].as_slice(), states) {
            return Some(place);
        }
    }
    None
}

/// Keeps the states at a start of a turn, once so many turns have begun, if they were not met before: if they were, it answers where.
fn keep(
    alloc: Global,
    held: &mut Vec<Vec<u32>>,
    states: &[u32],
    turn: u32,
    stages: u32,
) -> Result<Option<u32>, NoMemory>
    requires many { length (lists_in held.old.items) ≡ turn - stages }
    requires few { turn ≤ stages + 1024 }
    ensures found { IfOk result (λ place. IfSome place (λ i. (i < length (lists_in held.old.items)) × (states_at (lists_in held.old.items) i ≡ states.now))) }
    ensures new { IfOk result (λ place. IfNone place ((i : ℕ) → i < length (lists_in held.old.items) → states_at (lists_in held.old.items) i ≡ states.now → ⊥)) }
    ensures kept { IfOk result (λ place. IfNone place (lists_in held.new.items ≡ (if nat_lt turn stages then lists_in held.old.items else lists_in held.old.items ++ states.now ∷ []))) }
{
    if turn < stages {
        return Ok(None);
    }
    let place = place_of(held, states);
    if place.is_none() {
        held.push(Vec::from_slice(alloc, states)?)?;
    }
    Ok(place)
}

/// The first two starts of turns at which a machine is in the same states, on one in its start, while nothing is kept: None if an issue
/// is not taken before, or after so many turns. No turn is drained.
fn first_meeting<L: Ledger>(
    alloc: Global,
    walker: &mut Replayer<'_>,
    held: &mut Vec<Vec<u32>>,
    classes: &[u32],
    kernel: &[KernelSlot],
    interval: u32,
    stages: u32,
    steps: &mut Steps<L>,
) -> Result<Option<Repeat>, NoMemory>
    requires settles { Settles walker.old.machine }
    requires starts { walker.old.states ≡ starts_of walker.old.machine }
    requires nothing { held.old.items ≡ [] }
    requires classes { All (λ c. c < length walker.old.machine.classes) classes.now }
    requires places { All (λ x. x.place < length classes.now) kernel.now }
    requires few { stages ≤ stage_limit }
    ensures found { IfOk result (λ repeat. IfSome repeat (λ r. MeetsBy walker.old.machine (graph_of classes.now) interval stages (map kernel_slot_of kernel.now) r.first r.second)) }
    ensures soon { IfOk result (λ repeat. IfSome repeat (λ r. r.second ≤ stages + 1024)) }
    ensures none { IfOk result (λ repeat. IfNone repeat ((first second : ℕ) → MeetsBy walker.old.machine (graph_of classes.now) interval stages (map kernel_slot_of kernel.now) first second → ⊥)) }
{
    for turn in 0..stages + MOST_TURNS + 1 {
        if let Some(place) = keep(alloc, held, walker.states(), turn, stages)? {
            return Ok(Some(Repeat {
                first: stages + place,
                second: turn,
            }));
        }
        if !walk_interval(walker, classes, kernel, interval, 0, turn, steps) {
            return Ok(None);
        }
    }
    Ok(None)
}

/// Whether each number of turns up to this one is walked to its end, from a machine in its start.
fn all_drain<L: Ledger>(
    alloc: Global,
    walker: &mut Replayer<'_>,
    classes: &[u32],
    kernel: &[KernelSlot],
    interval: u32,
    stages: u32,
    turns: u32,
    steps: &mut Steps<L>,
) -> bool
    requires settles { Settles walker.old.machine }
    requires starts { walker.old.states ≡ starts_of walker.old.machine }
    requires classes { All (λ c. c < length walker.old.machine.classes) classes.now }
    requires places { All (λ x. x.place < length classes.now) kernel.now }
    requires few { stages ≤ stage_limit }
    requires soon { turns ≤ stages + 1024 }
    ensures each { OnTrue result ((count : ℕ) → count ≤ turns → is_some (drain_by walker.old.machine (graph_of classes.now) interval (map kernel_slot_of kernel.now) stages count) ≡ true) }
    ensures stuck { OnFalse result (((count : ℕ) → count ≤ turns → is_some (drain_by walker.old.machine (graph_of classes.now) interval (map kernel_slot_of kernel.now) stages count) ≡ true) → ⊥) }
{
    for turn in 0..turns {
        if !drains(
            alloc, walker, classes, kernel, interval, stages, turn, steps,
        ) {
            return false;
        }
        if !walk_interval(walker, classes, kernel, interval, 0, turn, steps) {
            return false;
        }
    }
    drains(
        alloc, walker, classes, kernel, interval, stages, turns, steps,
    )
}

/// As `first_repeat`, with the steps of a count that begins here.
fn first_repeat_by<L: Ledger>(
    alloc: Global,
    machine: &Machine,
    classes: &[u32],
    kernel: &[KernelSlot],
    interval: u32,
    stages: u32,
    blank: Blank,
) -> Result<Option<Repeat>, NoMemory>
    requires name { blank.name ≡ L.name }
    requires parts { blank.parts ≡ L.parts }
    requires some { 0 < blank.parts }
    requires settles { Settles (machine_of machine.now) }
    requires classes { All (λ c. c < length machine.now.classes.items) classes.now }
    requires places { All (λ x. x.place < length classes.now) kernel.now }
    requires few { stages ≤ stage_limit }
    ensures found { IfOk result (λ repeat. IfSome repeat (λ r. RepeatsBy (machine_of machine.now) (graph_of classes.now) interval stages (map kernel_slot_of kernel.now) r.first r.second)) }
    ensures none { IfOk result (λ repeat. IfNone repeat ((first second : ℕ) → RepeatsBy (machine_of machine.now) (graph_of classes.now) interval stages (map kernel_slot_of kernel.now) first second → ⊥)) }
{
    let mut steps = Steps::<L>::new(blank);
    let mut walker = Replayer::start(alloc, machine);
    let mut held = Vec::new(alloc);
    let found = first_meeting(
        alloc,
        &mut walker,
        &mut held,
        classes,
        kernel,
        interval,
        stages,
        &mut steps,
    )?;
    let Some(repeat) = found else {
        return Ok(None);
    };
    let mut again = Replayer::start(alloc, machine);
    if all_drain(
        alloc,
        &mut again,
        classes,
        kernel,
        interval,
        stages,
        repeat.second,
        &mut steps,
    ) {
        Ok(Some(repeat))
    } else {
        Ok(None)
    }
}

/// The first two starts of turns at which the machine is in the same states, once all stages have begun: None if an issue is not
/// taken before, or after so many turns. A body has these classes, and its kernel these slots.
pub fn first_repeat(
    alloc: Global,
    machine: &Machine,
    classes: &[u32],
    kernel: &[KernelSlot],
    interval: u32,
    stages: u32,
) -> Result<Option<Repeat>, NoMemory>
    requires settles { Settles (machine_of machine.now) }
    requires classes { All (λ c. c < length machine.now.classes.items) classes.now }
    requires places { All (λ x. x.place < length classes.now) kernel.now }
    requires few { stages ≤ stage_limit }
    ensures found { IfOk result (λ repeat. IfSome repeat (λ r. RepeatsBy (machine_of machine.now) (graph_of classes.now) interval stages (map kernel_slot_of kernel.now) r.first r.second)) }
    ensures none { IfOk result (λ repeat. IfNone repeat ((first second : ℕ) → RepeatsBy (machine_of machine.now) (graph_of classes.now) interval stages (map kernel_slot_of kernel.now) first second → ⊥)) }
{
    first_repeat_by::<Brand>(
        alloc,
        machine,
        classes,
        kernel,
        interval,
        stages,
        Blank::new(1),
    )
}
