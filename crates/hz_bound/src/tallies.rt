//! What the grids of a class take of each unit, in one walk through their pairs.
//!
//! A grid is asked row by row, since no call of `hz_grid` lists its pairs. In a row the units are looked through in blocks of
//! sixteen, of which one without a unit of the row costs a single look. So a grid costs a few steps for each of its cycles, of
//! which it has at most 512, and for each of its pairs.

ghost use Rattle.std.specs.Prelude.{◌≡◌, ◌≤◌, ◌<◌, ◌*◌, ◌+◌, ◌↔◌, ◌==◌, ℕ, min, cond, length, map, Some, All, IfOk};
ghost use Rattle.hz_grid.specs.Rows.{HasUnit};
ghost use Rattle.hz_grid.specs.Grids.{Holds};
ghost use Rattle.hz_measure_model.specs.Bounds.Loads.{cycles_at, ways_in, least};
ghost use Rattle.hz_bound.specs.Ranges.{has, range_of, all_cycles};
ghost use Rattle.hz_bound.specs.Tallies as model;
ghost use Rattle.hz_bound.specs.Tallies.{Says, IsStepped, IsAdded, AreTallies, AreNone, IsMask, AreMasks, no_tally, forced};

use crate::cycles::{Range, join_ranges, takes};
use hz_grid::{Grid, Row};
use hz_regexp::NoMemory;
use std::alloc::Global;

/// How many units a block has.
const BLOCK: usize = 16;

/// What the alternatives of a class up to one take of a unit. Alternatives are numbered from 1.
#[derive(Clone, Copy, Debug, PartialEq, Eq)]
pub struct Tally {
    /// The number of the last alternative that takes it, 0 if none did.
    last: usize,
    /// The least number of cycles in the alternatives before that, 0 if one does without it.
    before: u16,
    /// The number of cycles in that.
    here: u16,
    /// The first and the last cycle in all.
    range: Option<Range>,
}

/// The tally before any alternative.
fn none_yet() -> Tally
    ensures { result ≡ no_tally }
{
    Tally {
        last: 0,
        before: u16::MAX,
        here: u16::MAX,
        range: None,
    }
}

/// One more, up to the greatest.
fn one_more(count: u16) -> u16
    ensures { result ≡ min (count + 1) 65535 }
{
    if count == u16::MAX { count } else { count + 1 }
}

/// The least number of cycles in the alternatives before this one, 0 if one does without the unit.
fn before_of(tally: Tally, number: usize) -> u16
    ensures { result ≡ model.before_of number tally }
{
    if tally.last == number.saturating_sub(1) {
        tally.before.min(tally.here)
    } else {
        0
    }
}

/// The tally with one more cycle in which the alternative of this number takes the unit.
fn with_cycle(tally: Tally, number: usize, cycle: u32) -> Tally
    ensures { result ≡ model.with_cycle number cycle tally }
{
    let one = Range {
        first: cycle,
        last: cycle,
    };
    let range = join_ranges(tally.range, Some(one));
    if tally.last == number {
        Tally {
            last: number,
            before: tally.before,
            here: one_more(tally.here),
            range,
        }
    } else {
        Tally {
            last: number,
            before: before_of(tally, number),
            here: 1,
            range,
        }
    }
}

/// The tally of a unit with one more cycle, if the grid takes it then.
fn with_unit(tally: Tally, grid: &Grid, unit: u8, cycle: u16, number: usize) -> Tally
    ensures { result ≡ cond (has grid.now unit cycle) (model.with_cycle number cycle tally) tally }
{
    if takes(grid, unit, cycle) {
        with_cycle(tally, number, u32::from(cycle))
    } else {
        tally
    }
}

/// Tells a cycle of a grid to the units of a block.
fn add_block(tallies: &mut [Tally], grid: &Grid, cycle: u16, number: usize, first: usize)
    requires few { length tallies.old ≤ 256 }
    requires first { first ≤ 240 }
    ensures { IsStepped grid.now number cycle first (first + 16) tallies.old tallies.new }
{
    for unit in first..tallies.len().min(first + BLOCK) {
        tallies[unit] = with_unit(tallies[unit], grid, unit as u8, cycle, number);
    }
}

/// Tells a cycle of a grid to the units of a block, if the row has a unit of its mask.
fn add_masked(
    tallies: &mut [Tally],
    grid: &Grid,
    cycle: u16,
    number: usize,
    first: usize,
    row: Row<4>,
    mask: Row<4>,
)
    requires few { length tallies.old ≤ 256 }
    requires first { first ≤ 240 }
    requires row { (unit : ℕ) → HasUnit row unit ↔ Holds grid.now unit cycle }
    requires mask { IsMask first mask }
    ensures { IsStepped grid.now number cycle first (first + 16) tallies.old tallies.new }
{
    if row.meets(mask) {
        add_block(tallies, grid, cycle, number, first);
    }
}

/// Tells a cycle of a grid to all units.
fn add_row(tallies: &mut [Tally], grid: &Grid, masks: &[Row<4>], cycle: u16, number: usize)
    requires few { length tallies.old ≤ 256 }
    requires size { length masks.now ≡ 16 }
    requires masks { AreMasks masks.now }
    ensures { IsStepped grid.now number cycle 0 256 tallies.old tallies.new }
{
    let row = grid.row(cycle);
    if row.is_empty() {
        return;
    }
    for block in 0..masks.len() {
        let first = BLOCK * block;
        if first >= tallies.len() {
            return;
        }
        add_masked(tallies, grid, cycle, number, first, row, masks[block]);
    }
}

/// Tells the pairs of the alternative of this number to all units.
fn add_grid(tallies: &mut [Tally], grid: &Grid, masks: &[Row<4>], number: usize)
    requires few { length tallies.old ≤ 256 }
    requires size { length masks.now ≡ 16 }
    requires masks { AreMasks masks.now }
    ensures { IsAdded grid.now number tallies.old tallies.new }
{
    for cycle in 0..grid.length() {
        add_row(tallies, grid, masks, cycle, number);
    }
}

/// Tells the pairs of all alternatives.
fn add_grids(tallies: &mut [Tally], list: &[Grid], masks: &[Row<4>])
    requires few { length tallies.old ≤ 256 }
    requires none { AreNone tallies.old }
    requires size { length masks.now ≡ 16 }
    requires masks { AreMasks masks.now }
    ensures { AreTallies list.now (length tallies.old) tallies.new }
{
    for (index, grid) in list.iter().enumerate() {
        add_grid(tallies, grid, masks, index + 1);
    }
}

/// What the grids of a list take of each of so many units.
pub fn tallies_of(
    alloc: Global,
    list: &[Grid],
    masks: &[Row<4>],
    units: usize,
) -> Result<Vec<Tally>, NoMemory>
    requires few { units ≤ 256 }
    requires size { length masks.now ≡ 16 }
    requires masks { AreMasks masks.now }
    ensures { IfOk result (λ tallies. AreTallies list.now units tallies.items) }
{
    let mut tallies = vec![in alloc; none_yet(); units]?;
    add_grids(&mut tallies, list, masks);
    Ok(tallies)
}

/// For how many cycles each of so many alternatives takes the unit at least, 0 if there is none or one does without it.
pub fn force_of(tally: Tally, count: usize) -> u16
    ensures { result ≡ forced count tally }
{
    if count == 0 {
        return 0;
    }
    if tally.last == count {
        tally.before.min(tally.here)
    } else {
        0
    }
}

/// The first and the last cycle in which some alternative takes the unit.
pub fn range_of(tally: Tally) -> Option<Range>
    ensures { result ≡ tally.range }
{
    tally.range
}

/// The units of the block from one on.
fn mask_from(first: u8) -> Row<4>
    requires { first ≤ 240 }
    ensures { IsMask first result }
{
    let mut mask = Row::empty();
    for unit in 0..16 {
        mask = mask.add(first + unit);
    }
    mask
}

/// The units of each block.
pub fn masks_of(alloc: Global) -> Result<Vec<Row<4>>, NoMemory>
    ensures size { IfOk result (λ masks. length masks.items ≡ 16) }
    ensures masks { IfOk result (λ masks. AreMasks masks.items) }
{
    let mut masks = Vec::new(alloc);
    for block in 0..16 {
        masks.push(mask_from(16 * block))?;
    }
    Ok(masks)
}
