//! A table that is kept row by row.

ghost use Rattle.std.specs.Prelude.{◌≡◌, ℕ, ◌+◌, ◌*◌, ◌<◌, ◌≤◌, [], ◌∷◌, ◌++◌, length, OnOk, OnErr, vec_len};
ghost use Rattle.hz_pipeline_model.specs.Tables.AskColumns.{column_limit};
ghost use Rattle.hz_pipeline_model.specs.Tables.StateLimits.{state_limit};
ghost use Rattle.hz_pipeline_model.specs.Tables.Tables.{entry, row_of};
ghost use Rattle.hz_tables.specs.Rows.{AreStates, KeepsRows};

/// No memory was left for the answer.
pub use std::alloc::AllocError as NoMemory;
use std::alloc::Global;
use std::marker::Model;

/// A table of states: a row for each state, with an entry for each column and the advance last: the next state, or none.
/// The first state is 0.
#[derive(Drop)]
pub struct Plain {
    columns: u32,
    states: u32,
    cells: Vec<Option<u32>>,
}

impl Model for Plain {
    ghost use Rattle.std.specs.Prelude.{◌+◌};
    ghost use Rattle.hz_tables.specs.Rows.{Rows};
    ghost use Rattle.hz_tables.specs.Stored.{rows_in, AreCells};

    ghost Value = { Rows };

    ghost view = { λ plain. record { columns = plain.columns; rows = rows_in (plain.columns + 1) plain.states plain.cells.items } };

    ghost invariant = { λ plain. AreCells plain.columns plain.states plain.cells.items };
}

impl Plain {
    /// The table with no row, and so many columns before the advance. It takes no memory.
    pub fn new(alloc: Global, columns: u32) -> Plain
        requires { columns ≤ column_limit }
        ensures { result ≡ record { columns = columns; rows = [] } }
    {
        Plain {
            columns,
            states: 0,
            cells: Vec::new(alloc),
        }
    }

    /// Adds the row of the next state: an entry for each column, and the advance last. A refusal changes nothing.
    pub fn push_row(&mut self, row: &[Option<u32>]) -> Result<(), NoMemory>
        requires width { length row.now ≡ self.old.columns + 1 }
        requires targets { AreStates row.now }
        requires room { length self.old.rows < state_limit }
        ensures columns { self.new.columns ≡ self.old.columns }
        ensures pushed { OnOk result (self.new.rows ≡ self.old.rows ++ row.now ∷ []) }
        ensures refused { OnErr result (self.new ≡ self.old) }
        ensures kept { KeepsRows self.new }
    {
        self.cells.extend_from_slice(row)?;
        self.states += 1;
        Ok(())
    }

    /// How many states there are. It takes no memory.
    pub fn states(&self) -> u32
        ensures states { result ≡ length self.now.rows }
        ensures kept { KeepsRows self.now }
    {
        let _cells = &self.cells;
        self.states
    }

    /// How many columns stand before the advance, which is the column of that number. It takes no memory.
    pub fn columns(&self) -> u32
        ensures columns { result ≡ self.now.columns }
        ensures kept { KeepsRows self.now }
    {
        let _cells = &self.cells;
        self.columns
    }

    /// Each row has an entry for each column and the advance. It does nothing.
    pub(crate) fn wide(&self)
        ensures { (state : ℕ) → state < length self.now.rows → length (row_of self.now.rows state) ≡ self.now.columns + 1 }
    {
        self.columns();
    }

    /// The next state, or none: one read. The column after the others is the advance. It takes no memory.
    pub fn step(&self, state: u32, column: u32) -> Option<u32>
        requires state { state < length self.now.rows }
        requires column { column ≤ self.now.columns }
        ensures { result ≡ entry self.now.rows state column }
    {
        let width = self.columns as usize + 1;
        self.cells[state as usize * width + column as usize]
    }
}
