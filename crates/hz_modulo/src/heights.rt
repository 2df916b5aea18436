//! Heights of the states of a part: which are high enough for what a body asks.

ghost use Rattle.std.specs.Prelude.{◌≡◌, ◌<◌, ℕ, List, length, All, slice_index};
ghost use Rattle.std.specs.Bool.{OnTrue};
ghost use Rattle.hz_pipeline_model.specs.Tables.Machines.{part_at};
ghost use Rattle.hz_tables.specs.Machines.{machine_of};
ghost use Rattle.hz_modulo.specs.Heights.{IsRaised, IsLowered, AreHigh};

use hz_tables::{Machine, Steps};
use std::sync::ledger::Ledger;

/// A number of a list, 0 past its end.
pub fn number_of(numbers: &[u32], place: u32) -> u32
    ensures { result ≡ slice_index numbers.now place }
{
    match numbers.get(place as usize) {
        Some(number) => *number,
        None => 0,
    }
}

/// Whether a class raises a state by its weight, if it can be issued there.
fn is_raised<L: Ledger>(
    machine: &Machine,
    part: u32,
    weights: &[u32],
    heights: &[u32],
    state: u32,
    class: u32,
    steps: &mut Steps<L>,
) -> bool
    requires part { part < length machine.now.parts.items }
    requires state { state < length (part_at (machine_of machine.now) part).rows }
    requires class { class < length machine.now.classes.items }
    ensures { OnTrue result (IsRaised (part_at (machine_of machine.now) part) weights.now heights.now state class) }
{
    match machine.step(part, state, Some(class), steps) {
        None => true,
        Some(next) => {
            let least = u64::from(number_of(heights, state)) + u64::from(number_of(weights, class));
            least <= u64::from(number_of(heights, next))
        }
    }
}

/// Whether each of these classes raises a state by its weight, if it can be issued there.
fn are_raised<L: Ledger>(
    machine: &Machine,
    part: u32,
    classes: &[u32],
    weights: &[u32],
    heights: &[u32],
    state: u32,
    steps: &mut Steps<L>,
) -> bool
    requires part { part < length machine.now.parts.items }
    requires state { state < length (part_at (machine_of machine.now) part).rows }
    requires classes { All (λ c. c < length machine.now.classes.items) classes.now }
    ensures { OnTrue result (All (IsRaised (part_at (machine_of machine.now) part) weights.now heights.now state) classes.now) }
{
    for class in classes {
        if !is_raised(machine, part, weights, heights, state, *class, steps) {
            return false;
        }
    }
    true
}

/// Whether a cycle lowers a state by no more than the share.
fn is_lowered<L: Ledger>(
    machine: &Machine,
    part: u32,
    share: u32,
    heights: &[u32],
    state: u32,
    steps: &mut Steps<L>,
) -> bool
    requires part { part < length machine.now.parts.items }
    requires state { state < length (part_at (machine_of machine.now) part).rows }
    ensures { OnTrue result (IsLowered (part_at (machine_of machine.now) part) share heights.now state) }
{
    match machine.step(part, state, None, steps) {
        None => true,
        Some(next) => {
            let most = u64::from(number_of(heights, next)) + u64::from(share);
            u64::from(number_of(heights, state)) <= most
        }
    }
}

/// Whether the heights of so many states are high enough: the issue of each of these classes raises a state by its weight, and a
/// cycle lowers it by no more than the share.
pub fn are_high<L: Ledger>(
    machine: &Machine,
    part: u32,
    states: u32,
    classes: &[u32],
    weights: &[u32],
    share: u32,
    heights: &[u32],
    steps: &mut Steps<L>,
) -> bool
    requires part { part < length machine.now.parts.items }
    requires states { states ≡ length (part_at (machine_of machine.now) part).rows }
    requires classes { All (λ c. c < length machine.now.classes.items) classes.now }
    ensures { OnTrue result (AreHigh (part_at (machine_of machine.now) part) classes.now weights.now share heights.now) }
{
    for state in 0..states {
        if !are_raised(machine, part, classes, weights, heights, state, steps) {
            return false;
        }
        if !is_lowered(machine, part, share, heights, state, steps) {
            return false;
        }
    }
    true
}
