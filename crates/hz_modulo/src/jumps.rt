//! Where cycles lead from each state of a part: tables of jumps over 1 cycle, 2, 4 and so on.

ghost use Rattle.std.specs.Prelude.{◌≡◌, ◌<◌, [], length, map, All, Some, None, IfOk, slice_index};
ghost use Rattle.hz_pipeline_model.specs.Tables.Machines as model;
ghost use Rattle.hz_pipeline_model.specs.Tables.Machines.{part_at, next_of};
ghost use Rattle.hz_tables.specs.Machines.{machine_of};
ghost use Rattle.hz_modulo.specs.Lanes.{IsWithin, AreJumps, AreJumpsFrom, jumped, landed};

use hz_regexp::NoMemory;
use hz_tables::{Machine, Steps};
use std::alloc::Global;
use std::sync::ledger::Ledger;

/// How many tables there are below the top, which is over 4,096 cycles.
const LEVELS: u32 = 12;

/// The state one cycle later. There is always one.
fn next_state<L: Ledger>(machine: &Machine, part: u32, state: u32, steps: &mut Steps<L>) -> u32
    requires part { part < length machine.now.parts.items }
    requires state { state < length (part_at (machine_of machine.now) part).rows }
    ensures { next_of (part_at (machine_of machine.now) part) state None ≡ Some result }
{
    match machine.step(part, state, None, steps) {
        Some(next) => next,
        None => unreachable!(),
    }
}

/// The jumps over one cycle, in a part of so many states.
pub fn single_jumps<L: Ledger>(
    alloc: Global,
    machine: &Machine,
    part: u32,
    states: u32,
    steps: &mut Steps<L>,
) -> Result<Vec<u32>, NoMemory>
    requires part { part < length machine.now.parts.items }
    requires states { states ≡ length (part_at (machine_of machine.now) part).rows }
    ensures { IfOk result (λ level. AreJumps (part_at (machine_of machine.now) part) 1 level.items) }
{
    let mut level = Vec::new(alloc);
    for state in 0..states {
        level.push(next_state(machine, part, state, steps))?;
    }
    Ok(level)
}

/// The jumps over twice as many cycles.
fn twice(alloc: Global, level: &[u32]) -> Result<Vec<u32>, NoMemory>
    requires within { All (λ next. next < length level.now) level.now }
    ensures { IfOk result (λ more. more.items ≡ map (slice_index level.now) level.now) }
{
    let mut more = Vec::new(alloc);
    for next in level {
        more.push(level[*next as usize])?;
    }
    Ok(more)
}

/// Adds the jumps over 1 cycle, 2 and so on to none, and gives those at the top.
pub fn add_levels(
    alloc: Global,
    levels: &mut Vec<Vec<u32>>,
    single: Vec<u32>,
) -> Result<Vec<u32>, NoMemory>
    requires nothing { levels.old.items ≡ [] }
    requires within { IsWithin (length single.items) single.items }
    ensures { IfOk result (λ top. (part : model.Part) → AreJumps part 1 single.items → AreJumpsFrom part 1 levels.new.items top.items) }
{
    let mut top = single;
    for _level in 0..LEVELS {
        let more = twice(alloc, &top)?;
        levels.push(top)?;
        top = more;
    }
    Ok(top)
}

/// The state so many jumps later.
fn jump(top: &[u32], state: u32, jumps: u32) -> u32
    requires top { IsWithin (length top.now) top.now }
    requires state { state < length top.now }
    ensures { result ≡ jumped top.now jumps state }
{
    let mut now = state;
    for _jump in 0..jumps {
        now = top[now as usize];
    }
    now
}

/// The state so many cycles later.
pub fn land(levels: &[Vec<u32>], top: &[u32], state: u32, cycles: u32) -> u32
    requires top { IsWithin (length top.now) top.now }
    requires levels { All (λ level. IsWithin (length top.now) level.items) levels.now }
    requires state { state < length top.now }
    ensures { result ≡ landed levels.now top.now cycles state }
{
    let mut now = state;
    let mut left = cycles;
    for level in levels {
        if left % 2 == 1 {
            now = level[now as usize];
        }
        left = left / 2;
    }
    jump(top, now, left)
}
