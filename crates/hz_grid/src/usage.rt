//! A grid that is tried against others, by the cycles in which it has a unit.
ghost use Rattle.std.specs.Prelude.{◌≡◌, ◌↔◌, ◌<◌, ℕ, All, IsTrue, IfOk, OnOk};
ghost use Rattle.std.specs.List.{Any};
ghost use Rattle.hz_grid.specs.Rows.{HasUnit, IsWithin};
ghost use Rattle.hz_grid.specs.Grids.{Meets};
ghost use Rattle.hz_grid.specs.Used.{MeetsIn, AreRowsOf, HasUnitsOf, KeepsUsed};

use crate::grid_of::NoMemory;
use crate::grids::Grid;
use crate::rows::Row;
use std::alloc::Global;
use std::marker::Model;

/// The units that are used in a cycle.
#[derive(Drop)]
pub struct UsedRow {
    /// The cycle, from 0 on.
    pub cycle: u16,
    /// The units.
    pub units: Row<4>,
}

/// A grid, and beside it each cycle in which it has a unit, with its units there. It is tried at a cost that does not hang
/// on its length.
#[derive(Drop)]
pub struct Usage {
    grid: Grid,
    rows: Vec<UsedRow>,
    units: Row<4>,
}

impl Model for Usage {
    ghost use Rattle.std.specs.Prelude.{List, ℕ};
    ghost use Rattle.hz_base_model.specs.Pairs.{Pair};
    ghost use Rattle.hz_grid.specs.Used.{IsUsage};

    ghost Value = { List (Pair ℕ) };

    ghost view = { λ usage. usage.grid };

    ghost invariant = { λ usage. IsUsage usage.grid usage.rows.items usage.units };
}

impl Usage {
    /// The grid with its rows beside it.
    pub fn of(alloc: Global, grid: Grid) -> Result<Usage, NoMemory>
        ensures { IfOk result (λ usage. usage ≡ grid) }
    {
        let rows = used_rows(alloc, &grid)?;
        let units = units_in(&rows);
        Ok(Usage { grid, rows, units })
    }

    /// The grid. It takes no memory.
    pub fn grid(&self) -> &Grid
        ensures { result.now ≡ self.now }
    {
        &self.grid
    }

    /// The rows that have a unit. It takes no memory.
    pub fn rows(&self) -> &[UsedRow]
        ensures { AreRowsOf self.now result.now }
    {
        &self.rows
    }

    /// The units that the grid has in any cycle. It takes no memory.
    pub fn units(&self) -> Row<4>
        ensures { HasUnitsOf self.now result }
    {
        self.units
    }

    /// Whether some pair is in both grids. It takes no memory.
    pub fn meets(&self, source: &Grid) -> bool
        ensures { IsTrue result ↔ Meets source.now self.now }
    {
        meets_some(source, &self.rows)
    }
}

// Whether a unit of a row is in the grid in the row's cycle.
fn meets_some(source: &Grid, rows: &[UsedRow]) -> bool
    ensures { IsTrue result ↔ Any (λ row. MeetsIn source.now row.cycle row.units) rows.now }
{
    rows.iter().any(|row| meets_row(source, row))
}

// Whether a unit of the row is in the grid in the row's cycle.
fn meets_row(source: &Grid, row: &UsedRow) -> bool
    ensures { IsTrue result ↔ MeetsIn source.now row.now.cycle row.now.units }
{
    source.meets_in(row.cycle, row.units)
}

// The rows of the grid that have a unit.
fn used_rows(alloc: Global, grid: &Grid) -> Result<Vec<UsedRow>, NoMemory>
    ensures { IfOk result (λ rows. AreRowsOf grid.now rows.items) }
{
    let mut rows = Vec::new(alloc);
    for cycle in 0..grid.length() {
        keep_used(&mut rows, cycle, grid.row(cycle))?;
    }
    Ok(rows)
}

// Adds the row, if it has a unit.
fn keep_used(rows: &mut Vec<UsedRow>, cycle: u16, units: Row<4>) -> Result<(), NoMemory>
    ensures { OnOk result (KeepsUsed cycle units rows.old.items rows.new.items) }
{
    if !units.is_empty() {
        rows.push(UsedRow { cycle, units })?;
    }
    Ok(())
}

// The units of the rows.
fn units_in(rows: &[UsedRow]) -> Row<4>
    ensures { All (λ row. IsWithin row.units result) rows.now }
{
    let mut units = Row::empty();
    for row in rows {
        units = units.join(row.units);
    }
    units
}
