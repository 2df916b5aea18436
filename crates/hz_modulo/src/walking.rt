//! Intervals of a kernel, walked slot by slot on a machine that settles.

ghost use Rattle.std.specs.Prelude.{is_some, true, ◌&&◌, nat_le, IsSome, IfSome, IfNone, ◌≡◌, ◌<◌, ◌≤◌, ◌+◌, ◌^◌, ◌∷◌, ◌++◌, [], ℕ, List, map, length, All, Some, None};
ghost use Rattle.std.specs.Bool.{OnTrue, OnFalse};
ghost use Rattle.hz_pipeline_model.specs.Accepting.Events.{issue, advance};
ghost use Rattle.hz_pipeline_model.specs.Tables.Machines.{parts_walk};
ghost use Rattle.hz_block_model.specs.Scheduling.Machines.{Settles};
ghost use Rattle.hz_block_model.specs.Scheduling.Schedules.{advance_to};
ghost use Rattle.hz_measure_model.specs.Kernels.Kernels.{interval_trace};
ghost use Rattle.hz_modulo.specs.Walking.{kernel_slot_of, graph_of, walk_rest, drained_from};

use crate::parts::KernelSlot;
use hz_replay::Replayer;
use hz_tables::Steps;
use std::alloc::Global;
use std::sync::ledger::Ledger;

/// So many cycles. Once each part is in its start no more cycles are looked at.
fn advance_by<L: Ledger>(walker: &mut Replayer<'_>, cycles: u32, steps: &mut Steps<L>)
    requires settles { Settles walker.old.machine }
    requires stands { parts_walk walker.old.machine.parts walker.old.states [] ≡ Some walker.old.states }
    ensures machine { walker.new.machine ≡ walker.old.machine }
    ensures taken { parts_walk walker.old.machine.parts walker.old.states (advance cycles ∷ []) ≡ Some walker.new.states }
{
    for _cycle in 0..cycles {
        if walker.is_at_start() {
            return;
        }
        walker.advance(steps);
    }
}

/// Advances from a cycle to another, if that is later.
fn advance_until<L: Ledger>(walker: &mut Replayer<'_>, cycle: u32, later: u32, steps: &mut Steps<L>)
    requires settles { Settles walker.old.machine }
    requires stands { parts_walk walker.old.machine.parts walker.old.states [] ≡ Some walker.old.states }
    ensures machine { walker.new.machine ≡ walker.old.machine }
    ensures taken { parts_walk walker.old.machine.parts walker.old.states (advance_to cycle later) ≡ Some walker.new.states }
{
    if cycle < later {
        advance_by(walker, later - cycle, steps);
    }
}

/// Advances from a cycle to another, if that is later, and issues a class there: false where it is not taken.
fn issue_at<L: Ledger>(
    walker: &mut Replayer<'_>,
    class: u32,
    cycle: u32,
    later: u32,
    steps: &mut Steps<L>,
) -> bool
    requires settles { Settles walker.old.machine }
    requires class { class < length walker.old.machine.classes }
    requires stands { parts_walk walker.old.machine.parts walker.old.states [] ≡ Some walker.old.states }
    ensures machine { walker.new.machine ≡ walker.old.machine }
    ensures taken { OnTrue result (parts_walk walker.old.machine.parts walker.old.states (advance_to cycle later ++ issue class ∷ []) ≡ Some walker.new.states) }
    ensures refused { OnFalse result (parts_walk walker.old.machine.parts walker.old.states (advance_to cycle later ++ issue class ∷ []) ≡ None) }
{
    advance_until(walker, cycle, later, steps);
    walker.issue(class, steps)
}

/// Whether a stage is between two, these included.
fn is_between(stage: u32, least: u32, most: u32) -> bool
    ensures { result ≡ (nat_le least stage && nat_le stage most) }
{
    least <= stage && stage <= most
}

/// Walks one instruction of a kernel, if its stage is between two, and answers the cycle after which it goes on: None if the issue
/// is not taken.
fn walk_slot<L: Ledger>(
    walker: &mut Replayer<'_>,
    classes: &[u32],
    slot: KernelSlot,
    cycle: u32,
    least: u32,
    most: u32,
    steps: &mut Steps<L>,
) -> Option<u32>
    requires settles { Settles walker.old.machine }
    requires classes { All (λ c. c < length walker.old.machine.classes) classes.now }
    requires place { slot.place < length classes.now }
    requires stands { parts_walk walker.old.machine.parts walker.old.states [] ≡ Some walker.old.states }
    ensures machine { walker.new.machine ≡ walker.old.machine }
    ensures stands { IsSome result → parts_walk walker.old.machine.parts walker.new.states [] ≡ Some walker.new.states }
    ensures walked { IfSome result (λ next. (interval : ℕ) (kernel : List KernelSlot) → walk_rest walker.old.machine (graph_of classes.now) interval least most (slot ∷ kernel) cycle walker.old.states ≡ walk_rest walker.old.machine (graph_of classes.now) interval least most kernel next walker.new.states) }
    ensures refused { IfNone result ((interval : ℕ) (kernel : List KernelSlot) → walk_rest walker.old.machine (graph_of classes.now) interval least most (slot ∷ kernel) cycle walker.old.states ≡ None) }
{
    if is_between(slot.stage, least, most) {
        if issue_at(
            walker,
            classes[slot.place as usize],
            cycle,
            slot.offset,
            steps,
        ) {
            Some(slot.offset)
        } else {
            None
        }
    } else {
        Some(cycle)
    }
}

/// Walks one interval of a kernel with the stages between two alone: false if an issue is not taken.
pub fn walk_interval<L: Ledger>(
    walker: &mut Replayer<'_>,
    classes: &[u32],
    kernel: &[KernelSlot],
    interval: u32,
    least: u32,
    most: u32,
    steps: &mut Steps<L>,
) -> bool
    requires settles { Settles walker.old.machine }
    requires classes { All (λ c. c < length walker.old.machine.classes) classes.now }
    requires places { All (λ x. x.place < length classes.now) kernel.now }
    requires stands { parts_walk walker.old.machine.parts walker.old.states [] ≡ Some walker.old.states }
    ensures machine { walker.new.machine ≡ walker.old.machine }
    ensures taken { OnTrue result (parts_walk walker.old.machine.parts walker.old.states (interval_trace (graph_of classes.now) interval least most (map kernel_slot_of kernel.now)) ≡ Some walker.new.states) }
    ensures refused { OnFalse result (parts_walk walker.old.machine.parts walker.old.states (interval_trace (graph_of classes.now) interval least most (map kernel_slot_of kernel.now)) ≡ None) }
{
    let mut cycle = 0;
    for slot in kernel {
        match walk_slot(walker, classes, *slot, cycle, least, most, steps) {
            Some(next) => cycle = next,
            None => return false,
        }
    }
    advance_until(walker, cycle, interval, steps);
    true
}

/// So many turns end: after the start of the next one, which does not come, all stages that are left are walked. False if an issue
/// is not taken.
pub fn drains<L: Ledger>(
    alloc: Global,
    walker: &Replayer<'_>,
    classes: &[u32],
    kernel: &[KernelSlot],
    interval: u32,
    stages: u32,
    turn: u32,
    steps: &mut Steps<L>,
) -> bool
    requires settles { Settles walker.now.machine }
    requires classes { All (λ c. c < length walker.now.machine.classes) classes.now }
    requires places { All (λ x. x.place < length classes.now) kernel.now }
    requires stands { parts_walk walker.now.machine.parts walker.now.states [] ≡ Some walker.now.states }
    requires small { turn + stages + 1 < 2 ^ 32 }
    ensures drained { OnTrue result (is_some (drained_from walker.now.machine (graph_of classes.now) interval (map kernel_slot_of kernel.now) turn (stages + 1) (Some walker.now.states)) ≡ true) }
    ensures stuck { OnFalse result (drained_from walker.now.machine (graph_of classes.now) interval (map kernel_slot_of kernel.now) turn (stages + 1) (Some walker.now.states) ≡ None) }
{
    let mut drain = walker.copy(alloc);
    for back in 0..stages + 1 {
        if !walk_interval(
            &mut drain,
            classes,
            kernel,
            interval,
            back + 1,
            turn + back,
            steps,
        ) {
            return false;
        }
    }
    true
}
