//! What the classes of a body weigh in a part. Nothing is said of weights here: what follows from them is looked at (`are_high`).

ghost use Rattle.std.specs.Prelude.{◌≡◌, ◌<◌, length, All, IfOk};
ghost use Rattle.hz_pipeline_model.specs.Tables.Machines.{part_at};
ghost use Rattle.hz_tables.specs.Machines.{machine_of};

use hz_checked::{Checked, CheckedClass};
use hz_grid::Grid;
use hz_regexp::NoMemory;
use hz_tables::{Machine, Steps};
use std::alloc::Global;
use std::sync::ledger::Ledger;

/// How many cycles a class waits, at most.
const MOST_WAIT: u32 = 1_000;

/// How many look-ups weigh the classes of a body by their lists for an automaton, at most. So 16 automata take a few seconds together;
/// lists within their limits could ask for hundreds of times as many.
const MOST_LOOKUPS: u64 = 33_554_432;

/// What each class weighs, and how much of it a cycle gives back.
#[derive(Drop)]
pub struct Weights {
    pub each: Vec<u32>,
    pub share: u32,
}

/// How many of these units a grid takes in a cycle.
fn taken_at(grid: &Grid, units: &[u8], cycle: u16) -> u32 {
    let row = grid.row(cycle);
    let mut count: u32 = 0;
    for unit in units {
        if row.holds(*unit) {
            count = count.saturating_add(1);
        }
    }
    count
}

/// For how many cycles a grid takes these units, together.
fn taken(grid: &Grid, units: &[u8]) -> u32 {
    let mut count: u32 = 0;
    for cycle in 0..grid.length() {
        count = count.saturating_add(taken_at(grid, units, cycle));
    }
    count
}

/// For how many cycles the grids of a list take these units at least, together.
fn force(list: &[Grid], units: &[u8]) -> u32 {
    let mut least = u32::MAX;
    for grid in list {
        least = least.min(taken(grid, units));
        if least == 0 {
            return 0;
        }
    }
    if list.is_empty() { 0 } else { least }
}

/// The list of a class for an automaton.
fn list_of(class: &CheckedClass, automaton: u32) -> &[Grid] {
    match class.lists.get(automaton as usize) {
        Some(list) => list.as_slice(),
        None => &[],
    }
}

/// How many rows the grids of a list have together, with one more for each grid.
fn rows_of(list: &[Grid]) -> u64 {
    let mut rows: u64 = 0;
    for grid in list {
        rows = rows
            .saturating_add(u64::from(grid.length()))
            .saturating_add(1);
    }
    rows
}

/// How many rows the lists of these classes for an automaton have together.
fn rows_of_all(checked: &Checked, automaton: u32, classes: &[u32]) -> u64 {
    let mut rows: u64 = 0;
    for class in classes {
        if let Some(class) = checked.classes.get(*class as usize) {
            rows = rows.saturating_add(rows_of(list_of(class, automaton)));
        }
    }
    rows
}

/// How many units an automaton has.
fn unit_count(checked: &Checked, automaton: u32) -> u64 {
    match checked.automata.get(automaton as usize) {
        Some(automaton) => automaton.units.len() as u64,
        None => 0,
    }
}

/// Whether the lists of these classes are short enough to weigh by. A row is asked twice for each of 256 numbers of units. For each class
/// it is read once more, and asked for each unit.
pub fn are_short(checked: &Checked, automaton: u32, classes: &[u32]) -> bool {
    let each = (classes.len() as u64)
        .saturating_mul(unit_count(checked, automaton).saturating_add(1))
        .saturating_add(512);
    rows_of_all(checked, automaton, classes).saturating_mul(each) <= MOST_LOOKUPS
}

/// For how many cycles a class takes these units of an automaton at least, together.
fn force_of(checked: &Checked, automaton: u32, units: &[u8], class: u32) -> u32 {
    match checked.classes.get(class as usize) {
        Some(class) => force(list_of(class, automaton), units),
        None => 0,
    }
}

/// Puts a number at a place, if there is such a place.
fn put(numbers: &mut [u32], place: u32, number: u32)
    ensures { length numbers.new ≡ length numbers.old }
{
    if (place as usize) < numbers.len() {
        numbers[place as usize] = number;
    }
}

/// What these classes weigh, of so many, by these units of an automaton.
pub fn by_units(
    alloc: Global,
    checked: &Checked,
    automaton: u32,
    units: &[u8],
    classes: &[u32],
    count: usize,
) -> Result<Weights, NoMemory> {
    let mut each = vec![in alloc; 0; count]?;
    for class in classes {
        put(
            &mut each,
            *class,
            force_of(checked, automaton, units, *class),
        );
    }
    Ok(Weights {
        each,
        share: units.len().min(256) as u32,
    })
}

/// Whether some grid of a list takes a unit.
fn is_taken(list: &[Grid], unit: u8) -> bool {
    for grid in list {
        if taken(grid, &[unit]) > 0 {
            return true;
        }
    }
    false
}

/// The units of an automaton that a class takes.
pub fn units_of(
    alloc: Global,
    checked: &Checked,
    automaton: u32,
    class: u32,
) -> Result<Vec<u8>, NoMemory> {
    let mut units = Vec::new(alloc);
    if let Some(class) = checked.classes.get(class as usize) {
        for unit in 0..=u8::MAX {
            if is_taken(list_of(class, automaton), unit) {
                units.push(unit)?;
            }
        }
    }
    Ok(units)
}

/// How many cycles after the issue of a class at the start of a part it can be issued again.
fn wait_of<L: Ledger>(
    machine: &Machine,
    part: u32,
    states: u32,
    class: u32,
    steps: &mut Steps<L>,
) -> u32
    requires part { part < length machine.now.parts.items }
    requires states { states ≡ length (part_at (machine_of machine.now) part).rows }
    requires class { class < length machine.now.classes.items }
{
    let mut next = if states > 0 {
        machine.step(part, 0, Some(class), steps)
    } else {
        None
    };
    for cycle in 0..MOST_WAIT {
        match next {
            None => return 0,
            Some(state) => {
                if state >= states {
                    return 0;
                }
                if machine.step(part, state, Some(class), steps).is_some() {
                    return cycle;
                }
                next = machine.step(part, state, None, steps);
            }
        }
    }
    0
}

/// What these classes weigh by the cycles until each can be issued again.
pub fn by_waits<L: Ledger>(
    alloc: Global,
    machine: &Machine,
    part: u32,
    states: u32,
    classes: &[u32],
    steps: &mut Steps<L>,
) -> Result<Weights, NoMemory>
    requires part { part < length machine.now.parts.items }
    requires states { states ≡ length (part_at (machine_of machine.now) part).rows }
    requires classes { All (λ c. c < length machine.now.classes.items) classes.now }
{
    let mut each = vec![in alloc; 0; machine.classes.len()]?;
    for class in classes {
        put(
            &mut each,
            *class,
            wait_of(machine, part, states, *class, steps),
        );
    }
    Ok(Weights { each, share: 1 })
}
