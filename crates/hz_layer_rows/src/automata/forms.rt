//! Tables in each form, step by step.

ghost use Rattle.std.specs.Prelude.{◌≡◌, ◌<◌, length};
ghost use Rattle.hz_tables.specs.Parts.{rows_of};
ghost use Rattle.hz_pipeline_model.specs.Tables.Tables.{IsTable};

use crate::automata::tables::{table_of, write_entry};
use hz_tables::{Packed, Plain, Steps, Table};
use std::alloc::Global;
use std::marker::Brand;
use std::sync::ledger::{Blank, Ledger};

/// A table in each form, packed over cells of each width.
fn forms(alloc: Global, plain: Plain) -> Option<[Table; 4]>
    requires table { IsTable plain.rows plain.columns }
    requires few { length plain.rows < 256 }
{
    let one = Table::One(Packed::pack(alloc, &plain).ok()?);
    let two = Table::Two(Packed::pack(alloc, &plain).ok()?);
    let four = Table::Four(Packed::pack(alloc, &plain).ok()?);
    Some([Table::Rows(plain), one, two, four])
}

/// Writes where each column leads from a state.
pub fn write_steps<L: Ledger>(
    out: &mut String,
    table: &Table,
    state: u32,
    steps: &mut Steps<L>,
) -> Option<()>
    requires { state < length (rows_of table.now) }
{
    for column in 0..=table.columns() {
        write_entry(out, table.step(state, column, steps))?;
    }
    out.push(';').ok()
}

/// Writes where each column leads from each state.
fn write_rows<L: Ledger>(out: &mut String, table: &Table, steps: &mut Steps<L>) -> Option<()> {
    for state in 0..table.states() {
        write_steps(out, table, state, steps)?;
    }
    out.push('|').ok()
}

/// Writes the rows of each table.
fn write_each<L: Ledger>(out: &mut String, tables: &[Table], steps: &mut Steps<L>) -> Option<()> {
    for table in tables {
        write_rows(out, table, steps)?;
    }
    Some(())
}

/// The rows of each table, by steps that are counted.
fn counted<L: Ledger>(alloc: Global, tables: &[Table], blank: Blank) -> Option<String>
    requires name { blank.name ≡ L.name }
    requires parts { blank.parts ≡ L.parts }
    requires some { 0 < blank.parts }
{
    let mut steps = Steps::<L>::new(blank);
    let mut out = String::new(alloc);
    write_each(&mut out, tables, &mut steps)?;
    Some(out)
}

/// The rows of a table in each form.
pub fn answer(alloc: Global, text: &str) -> Option<String> {
    let plain = table_of(alloc, text)?;
    if plain.states() >= 256 {
        return None;
    }
    counted::<Brand>(alloc, &forms(alloc, plain)?, Blank::new(1))
}
