//! Grids and rows: which pairs they have, how they are joined, and how they are ordered.

use crate::automata::texts::{grid_of, grids_of, pairs_of, write_grid};
use hz_grid::{Grid, Row};
use std::alloc::Global;
use std::cmp::Ordering;
use std::fmt::Write;
use std::hash::{DefaultHasher, Hash, Hasher};

/// A grid, and whether it is the empty one.
pub fn answer_grid(alloc: Global, text: &str) -> Option<String> {
    let grid = grid_of(alloc, text)?;
    let mut out = String::new(alloc);
    write_grid(&mut out, &grid)?;
    if grid == Grid::empty(alloc) {
        out.push_str(" empty").ok()?;
    }
    Some(out)
}

/// Writes whether the union of two grids is this one, where they do not meet.
fn write_union(
    alloc: Global,
    out: &mut String,
    joined: &Grid,
    first: &Grid,
    second: &Grid,
) -> Option<()> {
    if first.meets(second) {
        return Some(());
    }
    let union = first.with(alloc, second).ok()?;
    write!(out, " {}", union == *joined).ok()
}

/// Writes a grid that two are joined to, and whether these meet, each the other one; where they do not, whether their union is
/// that grid too.
fn write_meeting(
    alloc: Global,
    out: &mut String,
    joined: &Grid,
    first: &Grid,
    second: &Grid,
) -> Option<()> {
    write_grid(out, joined)?;
    write!(out, " {} {}", first.meets(second), second.meets(first)).ok()?;
    write_union(alloc, out, joined, first, second)
}

/// Writes a copy of a grid to which another one is joined, and how the two meet.
fn write_joined(alloc: Global, out: &mut String, first: &Grid, second: &Grid) -> Option<()> {
    let mut joined = first.copy(alloc).ok()?;
    joined.join(alloc, second).ok()?;
    write_meeting(alloc, out, &joined, first, second)
}

/// What the grids before and after a `/` are together, and whether they meet, each the other one; where they do not, whether
/// their union is the same.
pub fn answer_join(alloc: Global, text: &str) -> Option<String> {
    let (first, second) = text.split_once('/')?;
    let mut out = String::new(alloc);
    write_joined(
        alloc,
        &mut out,
        &grid_of(alloc, first)?,
        &grid_of(alloc, second)?,
    )?;
    Some(out)
}

/// Writes the units of a row.
fn write_row(out: &mut String, row: Row<4>) -> Option<()> {
    for unit in 0..=u8::MAX {
        if row.holds(unit) {
            write!(out, " {unit}").ok()?;
        }
    }
    Some(())
}

/// For each pair after a `/` whether the grid before it has it, with the units of its cycle.
pub fn answer_rows(alloc: Global, text: &str) -> Option<String> {
    let (grid, pairs) = text.split_once('/')?;
    let grid = grid_of(alloc, grid)?;
    let mut out = String::new(alloc);
    for (unit, cycle) in &pairs_of(alloc, pairs)? {
        write!(out, " {}", grid.holds(*unit, *cycle)).ok()?;
        write_row(&mut out, grid.row(*cycle))?;
    }
    Some(out)
}

/// The row of the units of a text.
fn row_of(text: &str) -> Option<Row<4>> {
    let mut row = Row::<4>::empty();
    for word in text.split_whitespace() {
        row = row.add(word.parse::<u8>().ok()?);
    }
    Some(row)
}

/// Whether the rows before and after a `/` meet, whether the first is in the second, and their union.
pub fn answer_units(alloc: Global, text: &str) -> Option<String> {
    let (first, second) = text.split_once('/')?;
    let first = row_of(first)?;
    let second = row_of(second)?;
    let mut out = String::new(alloc);
    write!(out, "{} {}", first.meets(second), first.within(second)).ok()?;
    write_row(&mut out, first.join(second))?;
    Some(out)
}

/// What a hasher makes of a grid.
fn hash_of(grid: &Grid) -> u64 {
    let mut hasher = DefaultHasher::new();
    grid.hash(&mut hasher);
    hasher.finish()
}

/// How a grid compares with another one and with its copy: a `!` where one comparison says otherwise.
fn relation(alloc: Global, one: &Grid, two: &Grid) -> Option<char> {
    let copy = two.copy(alloc).ok()?;
    let same = hash_of(one) == hash_of(two);
    one.kept();
    two.kept();
    Some(match (one.cmp(&copy), one == two, same, one < two) {
        (Ordering::Less, false, false, true) => '<',
        (Ordering::Equal, true, true, false) => '=',
        (Ordering::Greater, false, false, false) => '>',
        _ => '!',
    })
}

/// How each of some grids compares with each.
pub fn answer_order(alloc: Global, text: &str) -> Option<String> {
    let grids = grids_of(alloc, text)?;
    let mut out = String::new(alloc);
    for one in &grids {
        write_relations(alloc, &mut out, one, &grids)?;
    }
    Some(out)
}

/// Writes how a grid compares with each of some.
fn write_relations(alloc: Global, out: &mut String, one: &Grid, grids: &[Grid]) -> Option<()> {
    out.push(' ').ok()?;
    for two in grids {
        out.push(relation(alloc, one, two)?).ok()?;
    }
    Some(())
}
