//! A table, however it is kept.

ghost use Rattle.std.specs.Prelude.{◌≡◌, ◌+◌, ◌<◌, ◌≤◌, ℕ, Some, length, IfOk};
ghost use Rattle.hz_pipeline_model.specs.Tables.StateLimits.{state_limit};
ghost use Rattle.hz_pipeline_model.specs.Tables.Tables.{entry, row_of};

use crate::{NoMemory, Packed, Plain, Steps};
use std::alloc::Global;
use std::sync::ledger::Ledger;

/// A table of states. What it means is its rows, in whichever form they are kept.
#[derive(Drop)]
pub enum Table {
    /// Rows as they are.
    Rows(Plain),
    /// Rows laid into one another, over cells of one byte: up to 255 states.
    One(Packed<1>),
    /// Over cells of two bytes: up to 65,535 states.
    Two(Packed<2>),
    /// Over cells of four bytes.
    Four(Packed<4>),
}

// What is done with a table: the first body where its rows are plain, and the second in whichever width they are packed.
macro_rules! in_form {
    ($table:expr, $plain:ident => $rows:expr, $packed:ident => $body:expr) => {
        match $table {
            Table::Rows($plain) => $rows,
            Table::One($packed) => $body,
            Table::Two($packed) => $body,
            Table::Four($packed) => $body,
        }
    };
}

impl Table {
    ghost use Rattle.hz_tables.specs.Parts.{rows_of, columns_of, IsLeastWidth};

    /// The table packed, over cells of the least width that has room for the number of its states.
    pub fn packed(alloc: Global, plain: &Plain) -> Result<Table, NoMemory>
        requires some { 0 < length plain.now.rows }
        requires targets { (row column next : ℕ) → entry plain.now.rows row column ≡ Some next → next < length plain.now.rows }
        ensures rows { IfOk result (λ table. rows_of table ≡ plain.now.rows) }
        ensures columns { IfOk result (λ table. columns_of table ≡ plain.now.columns) }
        ensures width { IfOk result IsLeastWidth }
    {
        let states = plain.states();
        if states < 256 {
            Ok(Table::One(Packed::pack(alloc, plain)?))
        } else if states < 65_536 {
            Ok(Table::Two(Packed::pack(alloc, plain)?))
        } else {
            Ok(Table::Four(Packed::pack(alloc, plain)?))
        }
    }

    /// How many states there are. It takes no memory.
    pub fn states(&self) -> u32
        ensures states { result ≡ length (rows_of self.now) }
        ensures few { result ≤ state_limit }
    {
        in_form!(self, plain => plain.states(), packed => packed.states())
    }

    /// How many columns stand before the advance, which is the column of that number. It takes no memory.
    pub fn columns(&self) -> u32
        ensures { result ≡ columns_of self.now }
    {
        in_form!(self, plain => plain.columns(), packed => packed.columns())
    }

    /// Each row has an entry for each column and the advance. It does nothing.
    pub fn wide(&self)
        ensures { (state : ℕ) → state < length (rows_of self.now) → length (row_of (rows_of self.now) state) ≡ columns_of self.now + 1 }
    {
        in_form!(self, plain => plain.wide(), packed => packed.wide())
    }

    /// The next state, or none. It takes at most three steps, a step being one read of a cell, and no memory.
    pub fn step<L: Ledger>(&self, state: u32, column: u32, steps: &mut Steps<L>) -> Option<u32>
        requires state { state < length (rows_of self.now) }
        requires column { column ≤ columns_of self.now }
        ensures next { result ≡ entry (rows_of self.now) state column }
        ensures cost { steps.new ≤ steps.old + 3 }
        ensures counted { steps.old < steps.new }
    {
        in_form!(
            self,
            plain => {
                steps.tick();
                plain.step(state, column)
            },
            packed => packed.step(state, column, steps)
        )
    }
}
