//! Tables of states, plain, packed and least.
//!
//! A table is rows with a semicolon between them, each with an entry for each column and the advance last: a state, or `-`
//! for none. `chain N` is a table of one column in which each of so many states leads to the next one, and the last to none.
//! `diagonal N` is one in which each state has itself in its own column. Both have the start at each advance.

ghost use Rattle.std.specs.Prelude.{◌<◌, ◌^◌, IfSome, IsTrue, length};
ghost use Rattle.std.specs.Bool.{OnTrue};
ghost use Rattle.hz_pipeline_model.specs.Tables.Tables.{IsTable};
ghost use Rattle.hz_tables.specs.Rows.{AreStates};
ghost use Rattle.hz_tables.specs.Widths.{is_width};
ghost use Rattle.hz_layer_rows.specs.Leading.{IsRow};

use hz_minim::{minimise, refine};
use hz_tables::{Packed, Plain};
use std::alloc::Global;
use std::fmt::Write;

/// A row: an entry for each column, and the advance last.
type Row = Vec<Option<u32>>;

/// The row of a text.
fn row_of(alloc: Global, text: &str) -> Option<Row> {
    let mut row = Vec::new(alloc);
    for word in text.split_whitespace() {
        let entry = match word {
            "-" => None,
            _ => Some(word.parse::<u32>().ok()?),
        };
        row.push(entry).ok()?;
    }
    Some(row)
}

/// The rows of a text of rows.
fn written_rows(alloc: Global, text: &str) -> Option<Vec<Row>> {
    let mut rows = Vec::new(alloc);
    for one in text.split(';') {
        rows.push(row_of(alloc, one)?).ok()?;
    }
    Some(rows)
}

/// Each state leads to the next one, and the last to none.
fn chain(alloc: Global, states: u32) -> Option<Vec<Row>> {
    let mut rows = Vec::new(alloc);
    for state in 1..states {
        rows.push(vec![in alloc; Some(state), Some(0)].ok()?).ok()?;
    }
    rows.push(vec![in alloc; None, Some(0)].ok()?).ok()?;
    Some(rows)
}

/// Each state has itself in its own column.
fn diagonal(alloc: Global, states: usize) -> Option<Vec<Row>> {
    if states > 1024 {
        return None;
    }
    let mut rows = Vec::new(alloc);
    for state in 0..states {
        let mut row = vec![in alloc; None; states + 1].ok()?;
        row[state] = Some(state as u32);
        row[states] = Some(0);
        rows.push(row).ok()?;
    }
    Some(rows)
}

/// The rows of a text.
fn rows_of(alloc: Global, text: &str) -> Option<Vec<Row>> {
    match text.trim().split_once(' ') {
        Some(("chain", states)) => chain(alloc, states.parse::<u32>().ok()?),
        Some(("diagonal", states)) => diagonal(alloc, states.parse::<usize>().ok()?),
        _ => written_rows(alloc, text),
    }
}

/// Whether the entries of a state are states, and its advance is one.
fn is_row(plain: &Plain, state: u32) -> bool
    requires { state < length plain.now.rows }
    ensures { OnTrue result (IsRow plain.now.rows plain.now.columns state) }
{
    for column in 0..plain.columns() + 1 {
        if let Some(next) = plain.step(state, column) {
            if next >= plain.states() {
                return false;
            }
        }
    }
    plain.step(state, plain.columns()).is_some()
}

/// Whether it is a table.
fn is_table(plain: &Plain) -> bool
    ensures { OnTrue result (IsTable plain.now.rows plain.now.columns) }
{
    for state in 0..plain.states() {
        if !is_row(plain, state) {
            return false;
        }
    }
    plain.states() > 0
}

/// Whether each entry is none or a state that may be.
fn are_states(row: &[Option<u32>]) -> bool
    ensures { OnTrue result (AreStates row.now) }
{
    row.iter().all(|next| next.unwrap_or(0) < 65_536)
}

/// Adds a row, where a table may have it.
fn push(plain: &mut Plain, row: &[Option<u32>]) -> Option<()> {
    if plain.states() < 65_536 && row.len() == plain.columns() as usize + 1 && are_states(row) {
        return plain.push_row(row).ok();
    }
    None
}

/// Adds rows, where a table may have them.
fn push_all(plain: &mut Plain, rows: &[Row]) -> Option<()> {
    for row in rows {
        push(plain, row)?;
    }
    Some(())
}

/// The table of a text.
pub fn table_of(alloc: Global, text: &str) -> Option<Plain>
    ensures { IfSome result (λ plain. IsTable plain.rows plain.columns) }
{
    let rows = rows_of(alloc, text)?;
    let columns = rows.first()?.len().checked_sub(1)?;
    if columns > 1024 {
        return None;
    }
    let mut plain = Plain::new(alloc, columns as u32);
    push_all(&mut plain, &rows)?;
    if is_table(&plain) { Some(plain) } else { None }
}

/// Writes an entry.
pub fn write_entry(out: &mut String, entry: Option<u32>) -> Option<()> {
    match entry {
        Some(state) => write!(out, " {state}").ok(),
        None => out.push_str(" -").ok(),
    }
}

/// Writes a row of a table.
fn write_row(out: &mut String, plain: &Plain, state: u32) -> Option<()>
    requires { state < length plain.now.rows }
{
    for column in 0..plain.columns() + 1 {
        write_entry(out, plain.step(state, column))?;
    }
    out.push(';').ok()
}

/// Writes the rows of a table, with a semicolon after each.
pub fn write_table(out: &mut String, plain: &Plain) -> Option<()> {
    for state in 0..plain.states() {
        write_row(out, plain, state)?;
    }
    Some(())
}

/// The rows of the least table of one.
pub fn answer_least(alloc: Global, text: &str) -> Option<String> {
    let mut out = String::new(alloc);
    let least = minimise(alloc, &table_of(alloc, text)?).ok()?;
    write_table(&mut out, &least)?;
    Some(out)
}

/// Writes for each of the first nine states the first of them in its block.
fn write_blocks(out: &mut String, blocks: &[u32]) -> Option<()> {
    for block in blocks.iter().take(9) {
        write!(out, " {:?}", blocks.iter().position(|other| other == block)).ok()?;
    }
    Some(())
}

/// For each of the first nine states the first state in its block, and how many blocks there are.
pub fn answer_blocks(alloc: Global, text: &str) -> Option<String> {
    let mut out = String::new(alloc);
    let mut blocks = refine(alloc, &table_of(alloc, text)?).ok()?;
    write_blocks(&mut out, &blocks)?;
    blocks.sort().ok()?;
    blocks.dedup();
    write!(out, "; {} blocks", blocks.len()).ok()?;
    Some(out)
}

/// Writes states and columns of a table that is packed, and whether its rows take no more than so many places.
fn write_packed<const W: usize>(
    alloc: Global,
    out: &mut String,
    plain: &Plain,
    most: u32,
) -> Option<()>
    requires width { IsTrue (is_width W) }
    requires small { length plain.now.rows < 256 ^ W }
    requires table { IsTable plain.now.rows plain.now.columns }
{
    let packed = Packed::<W>::pack(alloc, plain).ok()?;
    let few = packed.places() <= most;
    write!(out, " {} {} {few}", packed.states(), packed.columns()).ok()
}

/// States and columns of the table after a `/` as it is packed over cells of one, two and four bytes, and whether its rows take
/// no more than so many places as is said before it.
pub fn answer_packed(alloc: Global, text: &str) -> Option<String> {
    let (most, table) = text.split_once('/')?;
    let most = most.trim().parse::<u32>().ok()?;
    let plain = table_of(alloc, table)?;
    let mut out = String::new(alloc);
    if plain.states() < 256 {
        write_packed::<1>(alloc, &mut out, &plain, most)?;
        write_packed::<2>(alloc, &mut out, &plain, most)?;
        write_packed::<4>(alloc, &mut out, &plain, most)?;
    }
    Some(out)
}
