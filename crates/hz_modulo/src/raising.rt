//! Heights for the states of a part, which are raised until they are high enough, if they ever are. Nothing is said of them here: what
//! is made is looked at (`are_high`).

ghost use Rattle.std.specs.Prelude.{◌≡◌, ◌<◌, length, All, IfOk};
ghost use Rattle.hz_pipeline_model.specs.Tables.Machines.{part_at};
ghost use Rattle.hz_tables.specs.Machines.{machine_of};

use crate::heights::number_of;
use hz_regexp::NoMemory;
use hz_tables::{Machine, Steps};
use std::alloc::Global;
use std::sync::ledger::Ledger;

/// How often all states are gone through.
const PASSES: u32 = 8;

/// Raises a state to this height, if it is lower.
fn raise(heights: &mut [u32], state: Option<u32>, height: u32)
    ensures { length heights.new ≡ length heights.old }
{
    if let Some(state) = state {
        if (state as usize) < heights.len() && heights[state as usize] < height {
            heights[state as usize] = height;
        }
    }
}

/// Raises the states that are next to one.
fn raise_next<L: Ledger>(
    machine: &Machine,
    part: u32,
    classes: &[u32],
    weights: &[u32],
    share: u32,
    heights: &mut [u32],
    state: u32,
    steps: &mut Steps<L>,
)
    requires part { part < length machine.now.parts.items }
    requires state { state < length (part_at (machine_of machine.now) part).rows }
    requires classes { All (λ c. c < length machine.now.classes.items) classes.now }
    ensures { length heights.new ≡ length heights.old }
{
    let height = number_of(heights, state);
    for class in classes {
        let next = machine.step(part, state, Some(*class), steps);
        raise(
            heights,
            next,
            height.saturating_add(number_of(weights, *class)),
        );
    }
    let next = machine.step(part, state, None, steps);
    raise(heights, next, height.saturating_sub(share));
}

/// Raises the states that are next to any.
fn raise_all<L: Ledger>(
    machine: &Machine,
    part: u32,
    states: u32,
    classes: &[u32],
    weights: &[u32],
    share: u32,
    heights: &mut [u32],
    steps: &mut Steps<L>,
)
    requires part { part < length machine.now.parts.items }
    requires states { states ≡ length (part_at (machine_of machine.now) part).rows }
    requires classes { All (λ c. c < length machine.now.classes.items) classes.now }
    ensures { length heights.new ≡ length heights.old }
{
    for state in 0..states {
        raise_next(
            machine, part, classes, weights, share, heights, state, steps,
        );
    }
}

/// Heights for so many states of a part, by what these classes weigh there, and what a cycle gives back.
pub fn raised<L: Ledger>(
    alloc: Global,
    machine: &Machine,
    part: u32,
    states: u32,
    classes: &[u32],
    weights: &[u32],
    share: u32,
    steps: &mut Steps<L>,
) -> Result<Vec<u32>, NoMemory>
    requires part { part < length machine.now.parts.items }
    requires states { states ≡ length (part_at (machine_of machine.now) part).rows }
    requires classes { All (λ c. c < length machine.now.classes.items) classes.now }
    ensures { IfOk result (λ heights. length heights.items ≡ states) }
{
    let mut heights = vec![in alloc; 0; states as usize]?;
    for _pass in 0..PASSES {
        raise_all(
            machine,
            part,
            states,
            classes,
            weights,
            share,
            &mut heights,
            steps,
        );
    }
    Ok(heights)
}
