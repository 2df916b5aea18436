//! Grids and numbers of texts.
//!
//! A grid is pairs between blanks, each `UNIT.CYCLE`. After a `>` stands a grid of which this is left one cycle later.

use hz_grid::{CYCLES, Grid, UNITS};
use std::alloc::Global;
use std::fmt::Write;

/// The pair that a word is, of numbers below 256 and 65,536.
pub fn pair_of(word: &str) -> Option<(u8, u16)> {
    let (unit, cycle) = word.split_once('.')?;
    Some((unit.parse::<u8>().ok()?, cycle.parse::<u16>().ok()?))
}

/// The pairs of a text.
pub fn pairs_of(alloc: Global, text: &str) -> Option<Vec<(u8, u16)>> {
    let mut pairs = Vec::new(alloc);
    for word in text.split_whitespace() {
        pairs.push(pair_of(word)?).ok()?;
    }
    Some(pairs)
}

/// The numbers of a text, between blanks.
pub fn numbers_of(alloc: Global, text: &str) -> Option<Vec<u32>> {
    let mut numbers = Vec::new(alloc);
    for word in text.split_whitespace() {
        numbers.push(word.parse::<u32>().ok()?).ok()?;
    }
    Some(numbers)
}

/// The units of a text, numbers below 256 between blanks.
pub fn units_of(alloc: Global, text: &str) -> Option<Vec<u8>> {
    let mut units = Vec::new(alloc);
    for word in text.split_whitespace() {
        units.push(word.parse::<u8>().ok()?).ok()?;
    }
    Some(units)
}

/// The grid of these pairs, where they are in their range.
fn grid_with(alloc: Global, pairs: &[(u8, u16)]) -> Option<Grid> {
    if pairs.iter().all(|pair| usize::from(pair.0) < UNITS)
        && pairs.iter().all(|pair| usize::from(pair.1) < CYCLES)
    {
        return Grid::of(alloc, pairs).ok();
    }
    None
}

/// The grid of a text.
pub fn grid_of(alloc: Global, text: &str) -> Option<Grid> {
    match text.split_once('>') {
        Some((_, later)) => {
            let mut grid = grid_with(alloc, &pairs_of(alloc, later)?)?;
            grid.advance();
            Some(grid)
        }
        None => grid_with(alloc, &pairs_of(alloc, text)?),
    }
}

/// The grids of a text, with a `|` between them.
pub fn grids_of(alloc: Global, text: &str) -> Option<Vec<Grid>> {
    let mut grids = Vec::new(alloc);
    for one in text.split('|') {
        grids.push(grid_of(alloc, one)?).ok()?;
    }
    Some(grids)
}

/// Writes the length of a grid, and after a colon its pairs, by cycle and then by unit.
pub fn write_grid(out: &mut String, grid: &Grid) -> Option<()> {
    write!(out, "{}:", grid.length()).ok()?;
    for cycle in 0..grid.length() {
        write_units(out, grid, cycle)?;
    }
    Some(())
}

/// Writes the pairs of a grid in a cycle.
fn write_units(out: &mut String, grid: &Grid, cycle: u16) -> Option<()> {
    for unit in 0..=u8::MAX {
        if grid.holds(unit, cycle) {
            write!(out, " {unit}.{cycle}").ok()?;
        }
    }
    Some(())
}
