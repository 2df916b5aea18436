//! The parts of a machine, each by itself: an interval at which one of them refuses an issue of its first turns does not repeat. A
//! part jumps over cycles, so that this is asked in a step or two for each issue.

ghost use Rattle.std.specs.Prelude.{◌≡◌, ◌<◌, ◌≤◌, ◌+◌, ◌∷◌, ◌++◌, [], ℕ, List, length, map, All, Some, None, IfOk, IfSome, IfNone};
ghost use Rattle.std.specs.Bool.{OnTrue};
ghost use Rattle.hz_pipeline_model.specs.Accepting.Events.{issue, advance};
ghost use Rattle.hz_pipeline_model.specs.Tables.Machines as model;
ghost use Rattle.hz_pipeline_model.specs.Tables.Machines.{part_at, parts_walk, starts_of};
ghost use Rattle.hz_block_model.specs.Scheduling.Schedules.{advance_to};
ghost use Rattle.hz_measure_model.specs.Kernels.Kernels.{interval_trace};
ghost use Rattle.hz_measure_model.specs.Kernels.Repeats.{stage_limit};
ghost use Rattle.hz_tables.specs.Machines.{machine_of};
ghost use Rattle.hz_modulo.specs.Walking.{kernel_slot_of, graph_of, walk_rest};
ghost use Rattle.hz_modulo.specs.Repeating.{edge_by, RepeatsBy};
ghost use Rattle.hz_modulo.specs.Lanes.{lane_of, states_in, IsLaneOf, IsStuck};

use crate::jumps::{add_levels, land, single_jumps};
use crate::parts::KernelSlot;
use hz_regexp::NoMemory;
use hz_tables::{Machine, Steps};
use std::alloc::Global;
use std::marker::{Brand, Model};
use std::sync::ledger::{Blank, Ledger};

/// A part of a machine by itself, with jumps from each of its states over 1 cycle, 2, 4 and so on.
#[derive(Drop)]
pub struct Lane<'m> {
    machine: &'m Machine,
    part: u32,
    /// The state in which nothing is reserved.
    start: u32,
    levels: Vec<Vec<u32>>,
    top: Vec<u32>,
}

impl<'m> Model for Lane<'m> {
    ghost use Rattle.std.specs.Prelude.{◌≡◌, ◌<◌, length};
    ghost use Rattle.hz_pipeline_model.specs.Tables.Machines as model;
    ghost use Rattle.hz_pipeline_model.specs.Tables.Machines.{part_at};
    ghost use Rattle.hz_tables.specs.Machines.{machine_of};
    ghost use Rattle.hz_modulo.specs.Lanes.{lane_of, AreJumpsFrom};

    ghost Value = { model.Machine };

    ghost view = { λ l. lane_of (machine_of l.machine.now) l.part };

    ghost invariant = { λ l. (l.part < length l.machine.now.parts.items) × (l.start ≡ 0) × AreJumpsFrom (part_at (machine_of l.machine.now) l.part) 1 l.levels.items l.top.items };
}

impl<'m> Lane<'m> {
    /// A part of a machine by itself.
    fn new<L: Ledger>(
        alloc: Global,
        machine: &'m Machine,
        part: u32,
        steps: &mut Steps<L>,
    ) -> Result<Lane<'m>, NoMemory>
        requires part { part < length machine.now.parts.items }
        ensures { IfOk result (λ lane. lane ≡ lane_of (machine_of machine.now) part) }
    {
        let states = machine.parts[part as usize].table.states();
        let single = single_jumps(alloc, machine, part, states, steps)?;
        let mut levels = Vec::new(alloc);
        let top = add_levels(alloc, &mut levels, single)?;
        Ok(Lane {
            machine,
            part,
            start: 0,
            levels,
            top,
        })
    }

    /// The start.
    fn start(&self) -> u32
        ensures start { starts_of self.now ≡ result ∷ [] }
        ensures within { result < states_in self.now }
        ensures stands { parts_walk self.now.parts (result ∷ []) [] ≡ Some (result ∷ []) }
    {
        self.start
    }

    /// The state so many cycles later.
    fn after(&self, state: u32, cycles: u32) -> u32
        requires state { state < states_in self.now }
        ensures within { result < states_in self.now }
        ensures taken { parts_walk self.now.parts (state ∷ []) (advance cycles ∷ []) ≡ Some (result ∷ []) }
    {
        land(&self.levels, &self.top, state, cycles)
    }

    /// The state after an issue, none if it is not taken.
    fn issue<L: Ledger>(&self, state: u32, class: u32, steps: &mut Steps<L>) -> Option<u32>
        requires class { class < length self.now.classes }
        requires state { state < states_in self.now }
        ensures within { IfSome result (λ next. next < states_in self.now) }
        ensures taken { IfSome result (λ next. parts_walk self.now.parts (state ∷ []) (issue class ∷ []) ≡ Some (next ∷ [])) }
        ensures refused { IfNone result (parts_walk self.now.parts (state ∷ []) (issue class ∷ []) ≡ None) }
    {
        self.machine.step(self.part, state, Some(class), steps)
    }
}

/// Advances from a cycle to another, if that is later.
fn advance_until(lane: &Lane<'_>, state: u32, cycle: u32, later: u32) -> u32
    requires state { state < states_in lane.now }
    requires stands { parts_walk lane.now.parts (state ∷ []) [] ≡ Some (state ∷ []) }
    ensures within { result < states_in lane.now }
    ensures taken { parts_walk lane.now.parts (state ∷ []) (advance_to cycle later) ≡ Some (result ∷ []) }
{
    if cycle < later {
        lane.after(state, later - cycle)
    } else {
        state
    }
}

/// Advances from a cycle to another, if that is later, and issues a class there: none if it is not taken.
fn issue_at<L: Ledger>(
    lane: &Lane<'_>,
    state: u32,
    class: u32,
    cycle: u32,
    later: u32,
    steps: &mut Steps<L>,
) -> Option<u32>
    requires class { class < length lane.now.classes }
    requires state { state < states_in lane.now }
    requires stands { parts_walk lane.now.parts (state ∷ []) [] ≡ Some (state ∷ []) }
    ensures within { IfSome result (λ next. next < states_in lane.now) }
    ensures taken { IfSome result (λ next. parts_walk lane.now.parts (state ∷ []) (advance_to cycle later ++ issue class ∷ []) ≡ Some (next ∷ [])) }
    ensures refused { IfNone result (parts_walk lane.now.parts (state ∷ []) (advance_to cycle later ++ issue class ∷ []) ≡ None) }
{
    lane.issue(advance_until(lane, state, cycle, later), class, steps)
}

/// Where a part is in an interval: the cycle, and the state at it.
#[derive(Clone, Copy)]
struct Place {
    cycle: u32,
    state: u32,
}

/// Walks one instruction of a kernel, if its stage has begun after so many turns, and answers where the part is then: none if the
/// issue is not taken.
fn walk_slot<L: Ledger>(
    lane: &Lane<'_>,
    classes: &[u32],
    slot: KernelSlot,
    turn: u32,
    place: Place,
    steps: &mut Steps<L>,
) -> Option<Place>
    requires classes { All (λ c. c < length lane.now.classes) classes.now }
    requires place { slot.place < length classes.now }
    requires state { place.state < states_in lane.now }
    requires stands { parts_walk lane.now.parts (place.state ∷ []) [] ≡ Some (place.state ∷ []) }
    ensures within { IfSome result (λ next. next.state < states_in lane.now) }
    ensures stands { IfSome result (λ next. parts_walk lane.now.parts (next.state ∷ []) [] ≡ Some (next.state ∷ [])) }
    ensures walked { IfSome result (λ next. (interval : ℕ) (kernel : List KernelSlot) → walk_rest lane.now (graph_of classes.now) interval 0 turn (slot ∷ kernel) place.cycle (place.state ∷ []) ≡ walk_rest lane.now (graph_of classes.now) interval 0 turn kernel next.cycle (next.state ∷ [])) }
    ensures refused { IfNone result ((interval : ℕ) (kernel : List KernelSlot) → walk_rest lane.now (graph_of classes.now) interval 0 turn (slot ∷ kernel) place.cycle (place.state ∷ []) ≡ None) }
{
    if turn < slot.stage {
        return Some(place);
    }
    let class = classes[slot.place as usize];
    match issue_at(lane, place.state, class, place.cycle, slot.offset, steps) {
        Some(state) => Some(Place {
            cycle: slot.offset,
            state,
        }),
        None => None,
    }
}

/// Walks the interval in which so many turns have begun before, and answers the state at its end: none if an issue is not taken.
fn walk_turn<L: Ledger>(
    lane: &Lane<'_>,
    classes: &[u32],
    kernel: &[KernelSlot],
    interval: u32,
    turn: u32,
    state: u32,
    steps: &mut Steps<L>,
) -> Option<u32>
    requires classes { All (λ c. c < length lane.now.classes) classes.now }
    requires places { All (λ x. x.place < length classes.now) kernel.now }
    requires state { state < states_in lane.now }
    requires stands { parts_walk lane.now.parts (state ∷ []) [] ≡ Some (state ∷ []) }
    ensures within { IfSome result (λ next. next < states_in lane.now) }
    ensures taken { IfSome result (λ next. parts_walk lane.now.parts (state ∷ []) (interval_trace (graph_of classes.now) interval 0 turn (map kernel_slot_of kernel.now)) ≡ Some (next ∷ [])) }
    ensures refused { IfNone result (parts_walk lane.now.parts (state ∷ []) (interval_trace (graph_of classes.now) interval 0 turn (map kernel_slot_of kernel.now)) ≡ None) }
{
    let mut place = Place { cycle: 0, state };
    for slot in kernel {
        match walk_slot(lane, classes, *slot, turn, place, steps) {
            Some(next) => place = next,
            None => return None,
        }
    }
    Some(advance_until(lane, place.state, place.cycle, interval))
}

/// Whether a part by itself refuses an issue before all stages of a kernel have begun, in the interval after that, or in the next one
/// without having been in the same state before.
fn is_stuck<L: Ledger>(
    lane: &Lane<'_>,
    classes: &[u32],
    kernel: &[KernelSlot],
    interval: u32,
    stages: u32,
    steps: &mut Steps<L>,
) -> bool
    requires classes { All (λ c. c < length lane.now.classes) classes.now }
    requires places { All (λ x. x.place < length classes.now) kernel.now }
    requires few { stages ≤ stage_limit }
    ensures { OnTrue result (IsStuck (edge_by lane.now (graph_of classes.now) interval (map kernel_slot_of kernel.now)) stages) }
{
    let mut before = lane.start();
    let mut state = before;
    for turn in 0..stages + 1 {
        before = state;
        match walk_turn(lane, classes, kernel, interval, turn, state, steps) {
            Some(next) => state = next,
            None => return true,
        }
    }
    if state == before {
        return false;
    }
    let next = walk_turn(lane, classes, kernel, interval, stages + 1, state, steps);
    next.is_none()
}

/// As `lanes_of`, with the steps of a count that begins here.
fn lanes_by<'m, L: Ledger>(
    alloc: Global,
    machine: &'m Machine,
    blank: Blank,
) -> Result<Vec<Lane<'m>>, NoMemory>
    requires name { blank.name ≡ L.name }
    requires parts { blank.parts ≡ L.parts }
    requires some { 0 < blank.parts }
    ensures { IfOk result (λ lanes. All (IsLaneOf (machine_of machine.now)) lanes.items) }
{
    let mut steps = Steps::<L>::new(blank);
    let mut lanes = Vec::new(alloc);
    for part in 0..machine.parts.len() as u32 {
        lanes.push(Lane::new(alloc, machine, part, &mut steps)?)?;
    }
    Ok(lanes)
}

/// The parts of a machine, each by itself.
pub fn lanes_of<'m>(alloc: Global, machine: &'m Machine) -> Result<Vec<Lane<'m>>, NoMemory>
    ensures { IfOk result (λ lanes. All (IsLaneOf (machine_of machine.now)) lanes.items) }
{
    lanes_by::<Brand>(alloc, machine, Blank::new(1))
}

/// As `stuck_lane`, with the steps of a count that begins here.
fn stuck_by<L: Ledger>(
    lanes: &[Lane<'_>],
    first: usize,
    classes: &[u32],
    kernel: &[KernelSlot],
    interval: u32,
    stages: u32,
    blank: Blank,
) -> Option<usize>
    requires name { blank.name ≡ L.name }
    requires parts { blank.parts ≡ L.parts }
    requires some { 0 < blank.parts }
    requires classes { All (λ lane. All (λ c. c < length lane.classes) classes.now) lanes.now }
    requires places { All (λ x. x.place < length classes.now) kernel.now }
    requires few { stages ≤ stage_limit }
    ensures { IfSome result (λ _. (m : model.Machine) (first second : ℕ) → All (IsLaneOf m) lanes.now → RepeatsBy m (graph_of classes.now) interval stages (map kernel_slot_of kernel.now) first second → ⊥) }
{
    let mut steps = Steps::<L>::new(blank);
    if first < lanes.len() {
        if is_stuck(&lanes[first], classes, kernel, interval, stages, &mut steps) {
            return Some(first);
        }
    }
    for place in 0..lanes.len() {
        if is_stuck(&lanes[place], classes, kernel, interval, stages, &mut steps) {
            return Some(place);
        }
    }
    None
}

/// A part that by itself refuses an issue of the first turns of a kernel: then the turns do not repeat. The first to be asked is this one.
pub fn stuck_lane(
    lanes: &[Lane<'_>],
    first: usize,
    classes: &[u32],
    kernel: &[KernelSlot],
    interval: u32,
    stages: u32,
) -> Option<usize>
    requires classes { All (λ lane. All (λ c. c < length lane.classes) classes.now) lanes.now }
    requires places { All (λ x. x.place < length classes.now) kernel.now }
    requires few { stages ≤ stage_limit }
    ensures { IfSome result (λ _. (m : model.Machine) (first second : ℕ) → All (IsLaneOf m) lanes.now → RepeatsBy m (graph_of classes.now) interval stages (map kernel_slot_of kernel.now) first second → ⊥) }
{
    stuck_by::<Brand>(
        lanes,
        first,
        classes,
        kernel,
        interval,
        stages,
        Blank::new(1),
    )
}
