//! Machines of descriptions: how many states they have, and what is reported of them.

use crate::texts::checks::checked_of;
use crate::texts::forms::MOST_BYTES;
use hz_auto::{AutoReport, Compiled, Shown, compile};
use hz_checked::Checked;
use hz_tables::Table;
use std::alloc::Global;
use std::fmt::Write;

/// What the option and the forms of a text describe.
pub fn described(alloc: Global, option: &str, forms: &str) -> Option<Checked> {
    let text = format!(in alloc; "(automata_option \"{option}\"){forms}").ok()?;
    if text.len() > MOST_BYTES {
        return None;
    }
    checked_of(alloc, text.as_bytes())?.ok()
}

/// How a table is kept: as plain rows, or over cells of so many bytes.
fn form_of(table: &Table) -> &'static str {
    match table {
        Table::Rows(_) => "plain",
        Table::One(_) => "1",
        Table::Two(_) => "2",
        Table::Four(_) => "4",
    }
}

/// Writes for each of fewer than ten states where it is read first, and how many grids it has.
fn write_shown(out: &mut String, shown: &Shown) -> Option<()> {
    if shown.parents.len() >= 10 {
        return Some(());
    }
    for state in 0..shown.parents.len() {
        let (row, column) = shown.parents[state];
        let grids = shown.grids.get(state)?.len();
        write!(out, " {row}.{column} {grids},").ok()?;
    }
    Some(())
}

/// Writes grids, states and members of an automaton, and its states where they are shown.
fn write_report(out: &mut String, report: &AutoReport) -> Option<()> {
    let (grids, states) = (report.grids, report.states);
    write!(out, "; {grids} {states} {}", report.members).ok()?;
    match &report.shown {
        Some(shown) => write_shown(out, shown),
        None => Some(()),
    }
}

/// Writes the states of each part with how its table is kept, and what is reported of each automaton.
fn write_compiled(out: &mut String, all: &Compiled) -> Option<()> {
    for place in 0..all.machine.parts.len() {
        let table = &all.machine.parts[place].table;
        write!(out, " {} over {}", table.states(), form_of(table)).ok()?;
        write_report(out, all.reports.get(place)?)?;
    }
    Some(())
}

/// The machine of a description, whose option stands beside, or the limit that it passes.
pub fn answer(alloc: Global, text: &str, beside: &str) -> Option<String> {
    let checked = described(alloc, beside, text)?;
    let mut out = String::new(alloc);
    match &compile(alloc, &checked) {
        Ok(all) => write_compiled(&mut out, all)?,
        Err(fault) => write!(out, "{fault}").ok()?,
    }
    Some(out)
}
