//! The least interval that leaves room for what a body asks of each part of a machine.

ghost use Rattle.std.specs.Prelude.{◌≡◌, ◌<◌, ◌≤◌, ◌*◌, ℕ, length, All, IfOk, sum_by, slice_index};
ghost use Rattle.std.specs.Bool.{OnTrue};
ghost use Rattle.std.specs.List.{Contains};
ghost use Rattle.hz_pipeline_model.specs.Tables.Machines.{part_at};
ghost use Rattle.hz_tables.specs.Machines.{machine_of};
ghost use Rattle.hz_modulo.specs.Heights.{IsLow};

use crate::heights::{are_high, number_of};
use crate::raising::raised;
use crate::weighing::{Weights, are_short, by_units, by_waits, units_of};
use hz_checked::Checked;
use hz_regexp::NoMemory;
use hz_tables::{Machine, Steps};
use std::alloc::Global;
use std::marker::Brand;
use std::sync::ledger::{Blank, Ledger};

/// How many cells of a table are looked at in one pass.
const MOST_CELLS: u64 = 1_048_576;

/// Whether a number is among others.
fn is_among(numbers: &[u32], number: u32) -> bool
    ensures { OnTrue result (Contains numbers.now number) }
{
    for other in numbers {
        if *other == number {
            return true;
        }
    }
    false
}

/// Whether all of these numbers are among others.
fn are_among(numbers: &[u32], others: &[u32]) -> bool
    ensures { OnTrue result (All (λ n. Contains others.now n) numbers.now) }
{
    for number in numbers {
        if !is_among(others, *number) {
            return false;
        }
    }
    true
}

/// Classes once each.
fn once_each(alloc: Global, classes: &[u32]) -> Result<Vec<u32>, NoMemory>
    ensures { (count : ℕ) → All (λ c. c < count) classes.now → IfOk result (λ once. All (λ c. c < count) once.items) }
{
    let mut once = Vec::new(alloc);
    for class in classes {
        if !is_among(&once, *class) {
            once.push(*class)?;
        }
    }
    Ok(once)
}

/// What these classes weigh together.
fn total(weights: &[u32], classes: &[u32]) -> u64
    ensures { result ≤ sum_by (slice_index weights.now) classes.now }
{
    let mut sum: u64 = 0;
    for class in classes {
        sum = sum.saturating_add(u64::from(number_of(weights, *class)));
    }
    sum
}

/// The least interval of which each cycle gives back a share of so much.
fn least_interval(sum: u64, share: u32) -> u32
    ensures { (interval : ℕ) → sum ≤ share * interval → result ≤ interval }
{
    if sum == 0 {
        return 0;
    }
    if share == 0 {
        return 0;
    }
    ((sum - 1) / u64::from(share)).min(u64::from(u32::MAX - 1)) as u32 + 1
}

/// The least interval by weights.
fn value_of(weights: &Weights, classes: &[u32]) -> u32 {
    least_interval(total(&weights.each, classes), weights.share)
}

/// The weights of the greater interval.
fn heavier(first: Weights, second: Weights, classes: &[u32]) -> Weights {
    if value_of(&first, classes) < value_of(&second, classes) {
        second
    } else {
        first
    }
}

/// The heaviest weights by one unit.
fn by_one_unit(
    alloc: Global,
    checked: &Checked,
    automaton: u32,
    classes: &[u32],
    once: &[u32],
    count: usize,
) -> Result<Weights, NoMemory> {
    let mut most = by_units(alloc, checked, automaton, &[0], once, count)?;
    for unit in 1..=u8::MAX {
        let more = by_units(alloc, checked, automaton, &[unit], once, count)?;
        most = heavier(most, more, classes);
    }
    Ok(most)
}

/// The heaviest weights by one unit, or by the units of one class. If the lists are too long to be looked up, nothing weighs.
fn by_lists(
    alloc: Global,
    checked: &Checked,
    automaton: u32,
    classes: &[u32],
    once: &[u32],
    count: usize,
) -> Result<Weights, NoMemory> {
    if !are_short(checked, automaton, once) {
        return Ok(Weights {
            each: Vec::new(alloc),
            share: 0,
        });
    }
    let mut most = by_one_unit(alloc, checked, automaton, classes, once, count)?;
    for class in once {
        let units = units_of(alloc, checked, automaton, *class)?;
        let more = by_units(alloc, checked, automaton, &units, once, count)?;
        most = heavier(most, more, classes);
    }
    Ok(most)
}

/// The least interval by weights, if it is above another and there are heights that are high enough; else 0.
fn least_by<L: Ledger>(
    alloc: Global,
    machine: &Machine,
    part: u32,
    states: u32,
    classes: &[u32],
    once: &[u32],
    weights: &Weights,
    above: u32,
    steps: &mut Steps<L>,
) -> Result<u32, NoMemory>
    requires part { part < length machine.now.parts.items }
    requires states { states ≡ length (part_at (machine_of machine.now) part).rows }
    requires once { All (λ c. c < length machine.now.classes.items) once.now }
    requires among { All (λ c. Contains once.now c) classes.now }
    ensures { IfOk result (λ n. IsLow (machine_of machine.now) classes.now n) }
{
    let each: &[u32] = &weights.each;
    let sum = total(each, classes);
    let least = least_interval(sum, weights.share);
    if least <= above {
        return Ok(0);
    }
    let heights = raised(
        alloc,
        machine,
        part,
        states,
        once,
        each,
        weights.share,
        steps,
    )?;
    if are_high(
        machine,
        part,
        states,
        once,
        each,
        weights.share,
        &heights,
        steps,
    ) {
        Ok(least)
    } else {
        Ok(0)
    }
}

/// How many states a part has.
fn states_of(machine: &Machine, part: u32) -> u32
    requires { part < length machine.now.parts.items }
    ensures { result ≡ length (part_at (machine_of machine.now) part).rows }
{
    machine.parts[part as usize].table.states()
}

/// The least interval that leaves room in a part, if it is above another; else 0.
fn least_in<L: Ledger>(
    alloc: Global,
    machine: &Machine,
    checked: &Checked,
    part: u32,
    classes: &[u32],
    once: &[u32],
    above: u32,
    steps: &mut Steps<L>,
) -> Result<u32, NoMemory>
    requires part { part < length machine.now.parts.items }
    requires once { All (λ c. c < length machine.now.classes.items) once.now }
    requires among { All (λ c. Contains once.now c) classes.now }
    ensures { IfOk result (λ n. IsLow (machine_of machine.now) classes.now n) }
{
    let states = states_of(machine, part);
    if u64::from(states).saturating_mul((once.len() as u64).saturating_add(1)) > MOST_CELLS {
        return Ok(0);
    }
    let waits = by_waits(alloc, machine, part, states, once, steps)?;
    let first = least_by(
        alloc, machine, part, states, classes, once, &waits, above, steps,
    )?;
    let lists = by_lists(alloc, checked, part, classes, once, machine.classes.len())?;
    let second = least_by(
        alloc,
        machine,
        part,
        states,
        classes,
        once,
        &lists,
        above.max(first),
        steps,
    )?;
    if first < second {
        Ok(second)
    } else {
        Ok(first)
    }
}

/// As `least_room`, with the steps of a count that begins here.
fn least_room_by<L: Ledger>(
    alloc: Global,
    machine: &Machine,
    checked: &Checked,
    classes: &[u32],
    once: &[u32],
    above: u32,
    blank: Blank,
) -> Result<u32, NoMemory>
    requires name { blank.name ≡ L.name }
    requires parts { blank.parts ≡ L.parts }
    requires some { 0 < blank.parts }
    requires once { All (λ c. c < length machine.now.classes.items) once.now }
    requires among { All (λ c. Contains once.now c) classes.now }
    ensures { IfOk result (λ n. IsLow (machine_of machine.now) classes.now n) }
{
    let mut steps = Steps::<L>::new(blank);
    let mut most = 0;
    for part in 0..machine.parts.len() {
        let least = least_in(
            alloc,
            machine,
            checked,
            part as u32,
            classes,
            once,
            above.max(most),
            &mut steps,
        )?;
        if most < least {
            most = least;
        }
    }
    Ok(most)
}

/// An interval below which none leaves room for what instructions of these classes ask of the parts of a machine: 0 if none is found
/// above this one. The lists of the classes say what they ask; the tables of the machine, whether it is so.
pub fn least_room(
    alloc: Global,
    machine: &Machine,
    checked: &Checked,
    classes: &[u32],
    above: u32,
) -> Result<u32, NoMemory>
    requires classes { All (λ c. c < length machine.now.classes.items) classes.now }
    ensures { IfOk result (λ n. IsLow (machine_of machine.now) classes.now n) }
{
    let made = once_each(alloc, classes)?;
    let once: &[u32] = &made;
    if are_among(classes, once) {
        least_room_by::<Brand>(alloc, machine, checked, classes, once, above, Blank::new(1))
    } else {
        Ok(0)
    }
}
