//! Automata of columns of grids under rules.
//!
//! Columns have a semicolon between them, and the grids of each a bar; `none` is no column. What is made is `first`, the first
//! treatment, or `subset`, the one of `ndfa`, and after that caps on grids, states, members and cells, if any.

ghost use Rattle.std.specs.Prelude.{◌≡◌, ◌<◌, All, length};
ghost use Rattle.std.specs.Bool.{OnTrue};
ghost use Rattle.hz_determ.specs.Asking.{IsSingle};
ghost use Rattle.hz_determ.specs.Explored.{IsCaps};

use crate::automata::rules::rules_of;
use crate::automata::tables::write_table;
use crate::automata::texts::{grids_of, numbers_of, units_of};
use hz_determ::{Caps, Explored, StateFault, first, subset, with_asks};
use hz_grid::Grid;
use hz_unitsets::Rules;
use std::alloc::Global;
use std::fmt::Write;

/// The columns of a text.
fn columns_of(alloc: Global, text: &str) -> Option<Vec<Vec<Grid>>> {
    let mut columns = Vec::new(alloc);
    if text.trim() == "none" {
        return Some(columns);
    }
    for one in text.split(';') {
        columns.push(grids_of(alloc, one)?).ok()?;
    }
    Some(columns)
}

/// Whether caps are at most the limits.
fn are_caps(caps: &Caps) -> bool
    ensures { OnTrue result (IsCaps caps.now) }
{
    caps.grids <= 65_536
        && caps.states <= 65_536
        && caps.members <= 1_048_576
        && caps.cells <= 4_194_304
}

/// The caps of a text: the limits where it is empty.
fn caps_of(alloc: Global, text: &str) -> Option<Caps> {
    let numbers = numbers_of(alloc, text)?;
    match numbers.as_slice() {
        [] => Some(Caps {
            grids: 65_536,
            states: 65_536,
            members: 1_048_576,
            cells: 4_194_304,
        }),
        [grids, states, members, cells] => Some(Caps {
            grids: *grids,
            states: *states,
            members: *members,
            cells: *cells,
        }),
        _ => None,
    }
}

/// The automaton of columns under rules, as a word says.
fn explore(
    alloc: Global,
    word: &str,
    columns: &[Vec<Grid>],
    rules: &Rules,
    caps: &Caps,
) -> Option<Result<Explored, StateFault>> {
    if columns.len() > 1024 || !are_caps(caps) {
        return None;
    }
    match word {
        "first" => Some(first(alloc, columns, rules, caps)),
        "subset" => Some(subset(alloc, columns, rules, caps)),
        _ => None,
    }
}

/// The automaton of the columns after a `/`, as is said before it, under the statements beside.
fn automaton_of(alloc: Global, text: &str, beside: &str) -> Option<Result<Explored, StateFault>> {
    let (made, columns) = text.split_once('/')?;
    let (word, caps) = made.split_once(' ')?;
    let caps = caps_of(alloc, caps)?;
    let columns = columns_of(alloc, columns)?;
    explore(alloc, word, &columns, &rules_of(alloc, beside)?, &caps)
}

/// Writes grids, states and members of an automaton.
fn write_counts(out: &mut String, all: &Explored) -> Option<()> {
    let mut members = 0usize;
    for set in &all.sets {
        members = members.saturating_add(set.len());
    }
    write!(out, "{} {} {members}", all.grids.len(), all.sets.len()).ok()
}

/// Grids, states and members of an automaton, or its fault.
pub fn answer_counts(alloc: Global, text: &str, beside: &str) -> Option<String> {
    let mut out = String::new(alloc);
    match &automaton_of(alloc, text, beside)? {
        Ok(all) => write_counts(&mut out, all)?,
        Err(fault) => write!(out, "{fault}").ok()?,
    }
    Some(out)
}

/// Writes the numbers of the grids of each state, and where it is read first.
fn write_states(out: &mut String, all: &Explored) -> Option<()> {
    for state in 0..all.sets.len() {
        let (row, column) = *all.parents.get(state)?;
        let grids = all.sets[state].len();
        write!(out, " {grids} from {row}.{column},").ok()?;
    }
    Some(())
}

/// The rows of an automaton, and for each state how many grids it has and the row and column where it is read first.
pub fn answer_rows(alloc: Global, text: &str, beside: &str) -> Option<String> {
    let all = automaton_of(alloc, text, beside)?.ok()?;
    let mut out = String::new(alloc);
    write_table(&mut out, &all.plain)?;
    write_states(&mut out, &all)?;
    Some(out)
}

/// Whether it is the number of one of so many grids.
fn is_single(set: &[u32], grids: usize) -> bool
    ensures { OnTrue result (IsSingle grids set.now) }
{
    set.len() == 1 && (set[0] as usize) < grids
}

/// Whether each state has one grid.
fn are_single(sets: &[Vec<u32>], grids: usize) -> bool
    ensures { OnTrue result (All (λ set. IsSingle grids set.items) sets.now) }
{
    sets.iter().all(|set| is_single(set, grids))
}

/// Writes the rows of an automaton with asks, or the fault.
fn write_asked(
    alloc: Global,
    out: &mut String,
    all: &Explored,
    asks: &[u8],
    cells: u32,
) -> Option<()> {
    let caps = Caps {
        grids: 65_536,
        states: 65_536,
        members: 1_048_576,
        cells,
    };
    if all.plain.columns() > 1024
        || asks.len() > 256
        || all.sets.len() != all.plain.states() as usize
        || !are_single(&all.sets, all.grids.len())
    {
        return None;
    }
    match with_asks(alloc, all, asks, &caps) {
        Ok(plain) => write_table(out, &plain),
        Err(fault) => write!(out, "{fault}").ok(),
    }
}

/// The rows of an automaton with the asks that stand beside, under a cap of cells: `CELLS / UNIT ..`.
pub fn answer_asked(alloc: Global, text: &str, beside: &str) -> Option<String> {
    let (cells, asks) = beside.split_once('/')?;
    let cells = cells.trim().parse::<u32>().ok()?;
    let asks = units_of(alloc, asks)?;
    let all = automaton_of(alloc, text, "")?.ok()?;
    let mut out = String::new(alloc);
    write_asked(alloc, &mut out, &all, &asks, cells)?;
    Some(out)
}
