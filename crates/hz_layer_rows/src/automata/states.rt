//! Grids and lists that are kept once, by number.

ghost use Rattle.std.specs.Bool.{OnTrue};
ghost use Rattle.hz_states.specs.Interned.{IsIdSet};

use crate::automata::texts::{grids_of, numbers_of, write_grid};
use hz_grid::Grid;
use hz_states::{Interner, SetInterner, StateFault};
use std::alloc::Global;
use std::fmt::Write;

/// Writes a number, or a fault in parentheses.
fn write_number(out: &mut String, number: Result<u32, StateFault>) -> Option<()> {
    match number {
        Ok(number) => write!(out, " {number}").ok(),
        Err(fault) => write!(out, " ({fault})").ok(),
    }
}

/// Writes grids, each after a bar.
pub fn write_grids(out: &mut String, grids: &[Grid]) -> Option<()> {
    for grid in grids {
        out.push_str(" | ").ok()?;
        write_grid(out, grid)?;
    }
    Some(())
}

/// Writes how many grids are kept, and each by its number.
fn write_kept(out: &mut String, interner: &Interner) -> Option<()> {
    write!(out, "; {}", interner.len()).ok()?;
    for number in 0..interner.len() {
        out.push_str(" | ").ok()?;
        write_grid(out, interner.grid(number))?;
    }
    Some(())
}

/// Adds grids, and writes the number of each.
fn add_grids(out: &mut String, interner: &mut Interner, grids: Vec<Grid>) -> Option<()> {
    for grid in grids {
        write_number(out, interner.add(grid))?;
    }
    Some(())
}

/// Writes whether nothing is kept, the numbers of the grids of a text, and all that are kept then.
fn keep(alloc: Global, out: &mut String, interner: &mut Interner, text: &str) -> Option<()> {
    write!(out, "{}", interner.is_empty()).ok()?;
    add_grids(out, interner, grids_of(alloc, text)?)?;
    write_kept(out, interner)?;
    out.push(';').ok()
}

/// Writes all grids that are kept once more.
fn write_all(alloc: Global, out: &mut String, interner: Interner) -> Option<()> {
    write_grids(out, &interner.into_grids(alloc).ok()?)
}

/// Writes what is kept of the grids of a text, of which so many may be kept.
fn write_limited(alloc: Global, out: &mut String, limit: u32, grids: &str) -> Option<()> {
    let mut interner = Interner::new(alloc, limit);
    keep(alloc, out, &mut interner, grids)?;
    write_all(alloc, out, interner)
}

/// Whether nothing is kept, the numbers of the grids after a `/`, of which so many may be kept as is said before it, and all
/// that are kept, by number and once more.
pub fn answer_grids(alloc: Global, text: &str) -> Option<String> {
    let (limit, grids) = text.split_once('/')?;
    let mut out = String::new(alloc);
    write_limited(alloc, &mut out, limit.trim().parse::<u32>().ok()?, grids)?;
    Some(out)
}

/// Whether these are one number or two that ascend.
fn ascend(ids: &[u32]) -> bool
    ensures { OnTrue result (IsIdSet ids.now) }
{
    match ids {
        [_] => true,
        [one, two] => one < two,
        _ => false,
    }
}

/// Adds a list of one number or two, and writes its number.
fn add_list(alloc: Global, out: &mut String, interner: &mut SetInterner, text: &str) -> Option<()> {
    let ids = numbers_of(alloc, text)?;
    if ascend(&ids) {
        return write_number(out, interner.add(ids));
    }
    None
}

/// Adds the lists between bars, and writes the number of each.
fn add_lists(
    alloc: Global,
    out: &mut String,
    interner: &mut SetInterner,
    text: &str,
) -> Option<()> {
    for one in text.split('|') {
        add_list(alloc, out, interner, one)?;
    }
    Some(())
}

/// Writes how many lists are kept, how many numbers they have together, and each by its number.
fn write_kept_lists(out: &mut String, interner: &SetInterner) -> Option<()> {
    write!(out, "; {} {}", interner.len(), interner.member_count()).ok()?;
    for number in 0..interner.len() {
        write!(out, " {:?}", interner.ids(number)).ok()?;
    }
    Some(())
}

/// Writes whether nothing is kept, the numbers of the lists of a text, and all that are kept then.
fn keep_lists(
    alloc: Global,
    out: &mut String,
    interner: &mut SetInterner,
    text: &str,
) -> Option<()> {
    write!(out, "{}", interner.is_empty()).ok()?;
    add_lists(alloc, out, interner, text)?;
    write_kept_lists(out, interner)
}

/// Whether nothing is kept, the numbers of the lists after a `/`, of which so many may be kept, with so many numbers together,
/// as is said before it, and all that are kept, by number and once more.
pub fn answer_lists(alloc: Global, text: &str) -> Option<String> {
    let (limits, lists) = text.split_once('/')?;
    let (limit, members) = limits.trim().split_once(' ')?;
    let (limit, members) = (limit.parse::<u32>().ok()?, members.parse::<u32>().ok()?);
    let mut out = String::new(alloc);
    let mut interner = SetInterner::new(alloc, limit, members);
    keep_lists(alloc, &mut out, &mut interner, lists)?;
    write!(out, "; {:?}", interner.into_sets(alloc).ok()?).ok()?;
    Some(out)
}
