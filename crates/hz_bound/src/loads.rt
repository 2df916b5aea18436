//! The loads of the units of an automaton, in one walk through the pairs of each class that instructions have.

ghost use Rattle.std.specs.Prelude.{◌≡◌, ◌<◌, ◌≤◌, ◌*◌, ◌+◌, ℕ, min, [], length, map, All, IfOk, OnOk, slice_index_or};
ghost use Rattle.hz_checked.specs.Shape.{class_of};
ghost use Rattle.hz_bound.specs.Shape.{lists_in};
ghost use Rattle.hz_bound.specs.Tallies.{AreMasks, tally_at, forced};
ghost use Rattle.hz_bound.specs.Sums.{AreTimes, AreJoined, AreTotals, no_total, total_at, load_by};
ghost use Rattle.hz_bound.specs.Sums as model;

use crate::cycles::{Range, join_ranges};
use crate::tallies::{Tally, force_of, range_of, tallies_of};
use hz_checked::CheckedClass;
use hz_depend::GraphInsn;
use hz_grid::{Grid, Row};
use hz_regexp::NoMemory;
use std::alloc::Global;

/// What instructions take of a unit that they can't do without.
#[derive(Clone, Copy, Debug, PartialEq, Eq)]
pub struct Total {
    /// For how many cycles they take it together.
    pub count: u32,
    /// The first and the last cycle.
    pub range: Option<Range>,
}

/// What instructions ask a unit for.
#[derive(Clone, Copy, Debug, PartialEq, Eq)]
pub struct Counted {
    pub count: u32,
    pub span: u32,
    pub value: u32,
}

/// The total before any class.
fn none_yet() -> Total
    ensures { result ≡ no_total }
{
    Total {
        count: 0,
        range: None,
    }
}

/// One more, up to the greatest.
fn one_more(count: u32) -> u32
    ensures { result ≡ min (count + 1) 4294967295 }
{
    if count == u32::MAX { count } else { count + 1 }
}

/// How many of the instructions each of so many classes has.
pub fn times_of(alloc: Global, insns: &[GraphInsn], classes: usize) -> Result<Vec<u32>, NoMemory>
    requires { All (λ i. i.class < classes) insns.now }
    ensures { IfOk result (λ times. AreTimes (map (λ i. i.class) insns.now) classes times.items) }
{
    let mut times = vec![in alloc; 0; classes]?;
    for insn in insns {
        let class = insn.class as usize;
        times[class] = one_more(times[class]);
    }
    Ok(times)
}

/// The total with so many instructions of a class, if it can't do without the unit.
fn with_times(total: Total, times: u32, force: u16, range: Option<Range>) -> Total
    ensures { result ≡ model.with_times times force range total }
{
    if times == 0 {
        return total;
    }
    if force == 0 {
        return total;
    }
    Total {
        count: total
            .count
            .saturating_add(times.saturating_mul(u32::from(force))),
        range: join_ranges(total.range, range),
    }
}

/// Tells each unit what so many instructions of a class take, by its tallies over so many alternatives.
fn add_tallies(totals: &mut [Total], tallies: &[Tally], count: usize, times: u32)
    requires { length tallies.now ≡ length totals.old }
    ensures long { length totals.new ≡ length totals.old }
    ensures each { (u : ℕ) → u < length totals.old → total_at totals.new u ≡ model.with_times times (forced count (tally_at tallies.now u)) (tally_at tallies.now u).range (total_at totals.old u) }
{
    for unit in 0..totals.len() {
        let tally = tallies[unit];
        totals[unit] = with_times(totals[unit], times, force_of(tally, count), range_of(tally));
    }
}

/// Tells each unit what so many instructions of a class take, by its grids.
fn add_list(
    alloc: Global,
    totals: &mut [Total],
    list: &[Grid],
    masks: &[Row<4>],
    times: u32,
) -> Result<(), NoMemory>
    requires few { length totals.old ≤ 256 }
    requires size { length masks.now ≡ 16 }
    requires masks { AreMasks masks.now }
    ensures { OnOk result (AreJoined list.now times totals.old totals.new) }
{
    if times == 0 {
        return Ok(());
    }
    let tallies = tallies_of(alloc, list, masks, totals.len())?;
    add_tallies(totals, &tallies, list.len(), times);
    Ok(())
}

/// The list of a class for an automaton.
fn list_of(class: &CheckedClass, automaton: usize) -> &[Grid]
    ensures { result.now ≡ slice_index_or (class_of class.now).lists automaton [] }
{
    match class.lists.get(automaton) {
        Some(list) => list.as_slice(),
        None => &[],
    }
}

/// Tells each unit of an automaton what the instructions of all classes take.
fn add_classes(
    alloc: Global,
    totals: &mut [Total],
    classes: &[CheckedClass],
    masks: &[Row<4>],
    times: &[u32],
    automaton: usize,
) -> Result<(), NoMemory>
    requires few { length totals.old ≤ 256 }
    requires none { (u : ℕ) → total_at totals.old u ≡ no_total }
    requires size { length masks.now ≡ 16 }
    requires masks { AreMasks masks.now }
    requires times { length times.now ≡ length classes.now }
    ensures { OnOk result (AreTotals (lists_in classes.now) automaton times.now (length classes.now) (length totals.old) totals.new) }
{
    for (number, class) in classes.iter().enumerate() {
        add_list(
            alloc,
            totals,
            list_of(class, automaton),
            masks,
            times[number],
        )?;
    }
    Ok(())
}

/// What the instructions take of each of so many units of an automaton, by how many each class has.
pub fn totals_of(
    alloc: Global,
    classes: &[CheckedClass],
    masks: &[Row<4>],
    times: &[u32],
    automaton: usize,
    units: usize,
) -> Result<Vec<Total>, NoMemory>
    requires few { units ≤ 256 }
    requires size { length masks.now ≡ 16 }
    requires masks { AreMasks masks.now }
    requires times { length times.now ≡ length classes.now }
    ensures { IfOk result (λ totals. AreTotals (lists_in classes.now) automaton times.now (length classes.now) units totals.items) }
{
    let mut totals = vec![in alloc; none_yet(); units]?;
    add_classes(alloc, &mut totals, classes, masks, times, automaton)?;
    Ok(totals)
}

/// The load of a unit by what is taken of it, if some instruction can't do without it.
pub fn load_from(total: Total) -> Option<Counted>
    ensures { result ≡ load_by total }
{
    match total.range {
        None => None,
        Some(range) => {
            let span = range.last.saturating_sub(range.first);
            Some(Counted {
                count: total.count,
                span,
                value: total.count.saturating_sub(1).saturating_sub(span),
            })
        }
    }
}
