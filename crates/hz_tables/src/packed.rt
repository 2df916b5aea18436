//! A table whose rows are laid into one another.

ghost use Rattle.std.specs.Prelude.{◌≡◌, ℕ, ◌+◌, ◌*◌, ◌<◌, ◌≤◌, ◌^◌, Some, length, IfOk, All, IsTrue};
ghost use Rattle.hz_pipeline_model.specs.Tables.StateLimits.{state_limit};
ghost use Rattle.hz_pipeline_model.specs.Tables.Tables.{entry, row_of};
ghost use Rattle.hz_pipeline_model.specs.Combs.Combs.{entries_of};
ghost use Rattle.hz_tables.specs.Packing.{packing_of, IsPacked};
ghost use Rattle.hz_tables.specs.Widths.{is_width};

use crate::cells::Cells;
use crate::laying::lay_all;
use crate::pairs::Pairs;
use crate::{NoMemory, Plain, Steps};
use std::alloc::Global;
use std::marker::Model;
use std::sync::ledger::Ledger;

/// A table of states whose rows are laid into one another, over cells of `W` bytes: 1, 2 or 4. At each place stand, side by
/// side, the state that owns it and that state's next one; a state's entry in a column is looked up so many places after its
/// base. So a step is three reads: the base, the owner and its next state. GCC Internals, 'Specifying processor pipeline
/// description', on `no-comb-vect`.
#[derive(Drop)]
pub struct Packed<const W: usize> {
    columns: u32,
    bases: Cells<4>,
    pairs: Pairs<W>,
}

impl<const W: usize> Model for Packed<W> {
    ghost use Rattle.hz_tables.specs.Packing.{Packing, packing_of, IsPacked};

    ghost Value = { Packing };

    ghost view = { λ p. packing_of (record { columns = p.columns; bases = p.bases; owners = p.pairs.owners; targets = p.pairs.targets }) };

    ghost invariant = { λ p. IsPacked (record { columns = p.columns; bases = p.bases; owners = p.pairs.owners; targets = p.pairs.targets }) };
}

/// What is laid, packed.
fn packed_of<const W: usize>(columns: u32, bases: Cells<4>, pairs: Pairs<W>) -> Packed<W>
    requires { IsPacked (record { columns = columns; bases = bases; owners = pairs.owners; targets = pairs.targets }) }
    ensures { result ≡ packing_of (record { columns = columns; bases = bases; owners = pairs.entry.owners; targets = pairs.entry.targets }) }
{
    Packed {
        columns,
        bases,
        pairs,
    }
}

impl<const W: usize> Packed<W> {
    /// The table, packed. The cells have room for the number of its states.
    pub fn pack(alloc: Global, plain: &Plain) -> Result<Packed<W>, NoMemory>
        requires width { IsTrue (is_width W) }
        requires some { 0 < length plain.now.rows }
        requires targets { (row column next : ℕ) → entry plain.now.rows row column ≡ Some next → next < length plain.now.rows }
        requires small { length plain.now.rows < 256 ^ W }
        ensures columns { IfOk result (λ packed. packed.columns ≡ plain.now.columns) }
        ensures rows { IfOk result (λ packed. packed.rows ≡ plain.now.rows) }
    {
        let columns = plain.columns();
        let laid = lay_all(alloc, plain)?;
        let bases = Cells::of(alloc, &laid.bases)?;
        let pairs = Pairs::of(alloc, &laid.owners, &laid.targets)?;
        Ok(packed_of(columns, bases, pairs))
    }

    /// How many states there are. It takes no memory.
    pub fn states(&self) -> u32
        ensures states { result ≡ length self.now.rows }
        ensures few { result ≤ state_limit }
    {
        self.bases.count() as u32
    }

    /// How many columns stand before the advance, which is the column of that number. It takes no memory.
    pub fn columns(&self) -> u32
        ensures { result ≡ self.now.columns }
    {
        self.columns
    }

    /// Each row has an entry for each column and the advance. It does nothing.
    pub(crate) fn wide(&self)
        ensures { (state : ℕ) → state < length self.now.rows → length (row_of self.now.rows state) ≡ self.now.columns + 1 }
    {
        let _bases = &self.bases;
    }

    /// How many places the rows take: at least one for each entry that is not none, and at most those of full rows. It takes
    /// no memory.
    pub fn places(&self) -> u32
        ensures places { result ≡ self.now.places }
        ensures each { entries_of self.now.rows ≤ result }
        ensures most { result ≤ length self.now.rows * (self.now.columns + 1) }
    {
        self.pairs.count() as u32
    }

    /// The next state, or none. The column after the others is the advance. It takes at most three steps, a step being one
    /// read of a cell, and no memory.
    pub fn step<L: Ledger>(&self, state: u32, column: u32, steps: &mut Steps<L>) -> Option<u32>
        requires state { state < length self.now.rows }
        requires column { column ≤ self.now.columns }
        ensures next { result ≡ entry self.now.rows state column }
        ensures cost { steps.new ≤ steps.old + 3 }
        ensures counted { steps.old < steps.new }
    {
        let place = self.bases.get(state as usize, steps) as usize + column as usize;
        let (owner, target) = self.pairs.get(place, steps);
        if owner == state { Some(target) } else { None }
    }
}
