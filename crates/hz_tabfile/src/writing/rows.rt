//! Lines of states.

ghost use Rattle.std.specs.Prelude.{◌≡◌, ◌-◌, ◌^◌, ◌<◌, ◌≤◌, map, length};
ghost use Rattle.std.specs.List.{flat_map, enumerate_from};
ghost use Rattle.std.specs.Option.{option_map};
ghost use Rattle.hz_pipeline_model.specs.Tables.AskColumns.{column_limit};
ghost use Rattle.hz_pipeline_model.specs.Tables.Tables.{IsTable, row_of};
ghost use Rattle.hz_pipeline_model.specs.Tables.Machines.{advance_of};
ghost use Rattle.hz_tables.specs.Parts.{rows_of, columns_of, part_of};
ghost use Rattle.hz_tabtext_model.specs.Texts.{line_text, entry_field, entries_line, row_lines};
ghost use Rattle.hz_tabtext_model.specs.Said.{row_said};
ghost use Rattle.hz_auto.specs.Reports.{shown_of};
ghost use Rattle.hz_io.specs.Pages.{Adds};
ghost use Rattle.hz_tabfile.specs.Spaced.{spaced};
ghost use Rattle.hz_tabfile.specs.Saying.{IsWritable};

use crate::writing::lines::add_entry;
use crate::writing::shown::add_shown;
use hz_auto::AutoReport;
use hz_io::page::{Page, add, end_line};
use hz_io::{Failed, Sink};
use hz_regexp::Name;
use hz_tables::{Part, Steps, Table};
use std::marker::Brand;
use std::sync::ledger::{Blank, Ledger};

/// Adds the entries of a state, each after a space, with steps that nobody counts.
fn add_entries<S: Sink, L: Ledger>(
    out: &mut S,
    page: &mut Page,
    table: &Table,
    state: u32,
    blank: Blank,
) -> Result<(), Failed>
    requires faults { S.faults out.old < 2 ^ 64 - 1 }
    requires name { blank.name ≡ L.name }
    requires parts { blank.parts ≡ L.parts }
    requires some { 0 < blank.parts }
    requires table { IsTable (rows_of table.now) (columns_of table.now) }
    requires columns { columns_of table.now ≤ column_limit }
    requires state { state < length (rows_of table.now) }
    ensures { Adds S.written S.room S.faults out.old out.new page.old.items page.new.items (flat_map (λ entry. spaced (entry_field entry)) (row_of (rows_of table.now) state)) result }
{
    let mut steps = Steps::<L>::new(blank);
    for column in 0..table.columns() + 1 {
        match add_entry(out, page, table.step(state, column, &mut steps)) {
            Ok(()) => {}
            Err(failed) => return Err(failed),
        }
    }
    Ok(())
}

/// Adds the line of the row of a state.
fn add_row<S: Sink>(out: &mut S, page: &mut Page, table: &Table, state: u32) -> Result<(), Failed>
    requires faults { S.faults out.old < 2 ^ 64 - 1 }
    requires table { IsTable (rows_of table.now) (columns_of table.now) }
    requires columns { columns_of table.now ≤ column_limit }
    requires state { state < length (rows_of table.now) }
    ensures { Adds S.written S.room S.faults out.old out.new page.old.items page.new.items (line_text (entries_line (row_of (rows_of table.now) state))) result }
{
    add(out, page, b"row")?;
    add_entries::<S, Brand>(out, page, table, state, Blank::new(1))?;
    end_line(out, page)
}

/// The columns of a table are those of the classes of its part and those of the asks. It does nothing.
pub fn all_columns(part: &Part)
    requires { IsTable (part_of part.now).rows (advance_of (part_of part.now)) }
    ensures { advance_of (part_of part.now) ≡ columns_of part.now.table }
{
    part.table.wide();
}

/// Adds the lines of a state.
fn add_state<S: Sink>(
    out: &mut S,
    page: &mut Page,
    units: &[Name],
    report: &AutoReport,
    part: &Part,
    state: u32,
) -> Result<(), Failed>
    requires faults { S.faults out.old < 2 ^ 64 - 1 }
    requires writable { IsWritable units.now (part_of part.now) (option_map shown_of report.now.shown) }
    requires state { state < length (rows_of part.now.table) }
    ensures { Adds S.written S.room S.faults out.old out.new page.old.items page.new.items (flat_map line_text (row_lines (row_said units.now (option_map shown_of report.now.shown) (state, row_of (rows_of part.now.table) state)))) result }
{
    all_columns(part);
    add_row(out, page, &part.table, state)?;
    match &report.shown {
        Some(shown) => add_shown(out, page, state, shown, units),
        None => Ok(()),
    }
}

/// Adds the lines of the states of an automaton.
pub fn add_states<S: Sink>(
    out: &mut S,
    page: &mut Page,
    units: &[Name],
    report: &AutoReport,
    part: &Part,
) -> Result<(), Failed>
    requires faults { S.faults out.old < 2 ^ 64 - 1 }
    requires writable { IsWritable units.now (part_of part.now) (option_map shown_of report.now.shown) }
    ensures { Adds S.written S.room S.faults out.old out.new page.old.items page.new.items (flat_map (λ row. flat_map line_text (row_lines row)) (map (row_said units.now (option_map shown_of report.now.shown)) (enumerate_from 0 (rows_of part.now.table)))) result }
{
    for state in 0..part.table.states() {
        match add_state(out, page, units, report, part, state) {
            Ok(()) => {}
            Err(failed) => return Err(failed),
        }
    }
    Ok(())
}
