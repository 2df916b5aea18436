//! A grid of one width: the pairs of a unit and a cycle that are reserved, with the cycles counted from the present one.
ghost use Rattle.std.specs.Prelude.{◌≡◌, ◌↔◌, ◌<◌, ◌≤◌, ◌-◌, ◌*◌, ℕ, [], length, drop, take, max, All, IsTrue, IfOk, OnOk, OnErr, vec_len, fold, slice_index};
ghost use Rattle.hz_base_model.specs.Pairs.{grid_cmp};
ghost use Rattle.hz_grid.specs.Hashes.{fed_for};
ghost use Rattle.hz_grid.specs.Rows.{HasUnit, RowsMeet};
ghost use Rattle.hz_grid.specs.Used.{MeetsIn};
ghost use Rattle.hz_grid.specs.Grids.{Holds, IsGrid, HoldsJust, Meets, Unites, Advances};
ghost use Rattle.hz_grid.specs.Stored.{IsRows, HasJust, HasSameUnits, GainsUnit, ShareUnit, IsJoined};

use crate::order::{order, row_at};
use crate::rows::{Row, UNITS};
use std::alloc::Global;
use std::cmp::Ordering;
use std::hash::{Hash, Hasher};
use std::marker::Model;

/// No memory was left for the answer.
pub use std::alloc::AllocError as NoMemory;

/// How many cycles a grid may have: a pair's cycle is below it.
pub const CYCLES: usize = 512;

/// A set of pairs (unit, cycle), with units below 64 times `N` and cycles below `CYCLES`.
#[derive(Drop)]
pub struct GridOf<const N: usize> {
    rows: Vec<Row<N>>,
}

impl<const N: usize> Model for GridOf<N> {
    ghost use Rattle.std.specs.Prelude.{List, ℕ};
    ghost use Rattle.hz_base_model.specs.Pairs.{Pair};
    ghost use Rattle.hz_grid.specs.Stored.{pairs_from, IsGridOf};

    ghost Value = { List (Pair ℕ) };

    ghost view = { λ grid. pairs_from 0 grid.rows.items };

    ghost invariant = { λ grid. IsGridOf N grid.rows.items };
}

impl<const N: usize> GridOf<N> {
    /// The grid with no pair. It takes no memory.
    pub fn empty(alloc: Global) -> GridOf<N>
        requires { N ≤ 4 }
        ensures empty { result ≡ [] }
        ensures grid { IsGrid result }
    {
        GridOf {
            rows: Vec::new(alloc),
        }
    }

    /// The grid of these pairs of a unit and a cycle. A pair may stand twice.
    pub fn of(alloc: Global, pairs: &[(u8, u16)]) -> Result<GridOf<N>, NoMemory>
        requires few { N ≤ 4 }
        requires units { All (λ pair. pair.0 < 64 * N) pairs.now }
        requires cycles { All (λ pair. pair.1 < CYCLES) pairs.now }
        ensures grid { IfOk result IsGrid }
        ensures pairs { IfOk result (HoldsJust pairs.now) }
    {
        Ok(GridOf {
            rows: rows_of(alloc, pairs)?,
        })
    }

    /// Whether some pair is in both grids. It takes no memory.
    pub fn meets<const M: usize>(&self, other: &GridOf<M>) -> bool
        ensures meets { IsTrue result ↔ Meets self.now other.now }
        ensures grid { IsGrid self.now }
        ensures other { IsGrid other.now }
    {
        share_unit(&self.rows, &other.rows)
    }

    /// The grid with the pairs of both, of a width that holds them.
    pub fn with<const M: usize, const K: usize>(
        &self,
        alloc: Global,
        other: &GridOf<M>,
    ) -> Result<GridOf<K>, NoMemory>
        requires wide { N ≤ K }
        requires other { M ≤ K }
        requires few { K ≤ 4 }
        ensures grid { IfOk result IsGrid }
        ensures pairs { IfOk result (Unites self.now other.now) }
    {
        Ok(GridOf {
            rows: joined(alloc, &self.rows, &other.rows)?,
        })
    }

    /// Adds the pairs of a grid that is no wider. Where memory ran out all is as it was.
    pub fn join<const M: usize>(&mut self, other: &GridOf<M>) -> Result<(), NoMemory>
        requires { M ≤ N }
        ensures grid { IsGrid self.new }
        ensures pairs { OnOk result (Unites self.old other.now self.new) }
        ensures same { OnErr result (self.new ≡ self.old) }
    {
        join_rows(&mut self.rows, &other.rows)?;
        Ok(())
    }

    /// An equal grid.
    pub fn copy(&self, alloc: Global) -> Result<GridOf<N>, NoMemory>
        ensures grid { IfOk result IsGrid }
        ensures same { IfOk result (λ grid. grid ≡ self.now) }
    {
        Ok(GridOf {
            rows: Vec::from_slice(alloc, &self.rows)?,
        })
    }

    /// Goes one cycle on: the pairs of cycle 0 are dropped, and the others' cycles are lowered by one.
    /// It takes no memory.
    pub fn advance(&mut self)
        ensures grid { IsGrid self.new }
        ensures pairs { Advances self.old self.new }
    {
        drop_first(&mut self.rows);
    }

    /// One more than the greatest cycle of a pair, and 0 for the grid with no pair. It takes no memory.
    pub fn length(&self) -> u16
        ensures above { (unit cycle : ℕ) → Holds self.now unit cycle → cycle < result }
        ensures reached { 0 < result → (unit : ℕ) × Holds self.now unit (result - 1) }
        ensures grid { IsGrid self.now }
    {
        self.rows.len() as u16
    }

    /// What holds of every grid: its pairs ascend by cycle and unit, which are in their range. It does nothing.
    pub fn kept(&self)
        ensures { IsGrid self.now }
    {
        let _ = &self.rows;
    }

    /// The units of the pairs of that cycle: none past the greatest one. It takes no memory.
    pub fn row(&self, cycle: u16) -> Row<4>
        ensures { (unit : ℕ) → HasUnit result unit ↔ Holds self.now unit cycle }
    {
        row_at(&self.rows, usize::from(cycle))
    }

    /// Whether the grid has a unit of the row in that cycle. It takes no memory.
    pub fn meets_in(&self, cycle: u16, units: Row<4>) -> bool
        ensures { IsTrue result ↔ MeetsIn self.now cycle units }
    {
        row_meets(&self.rows, usize::from(cycle), units)
    }

    /// Whether the pair is in the grid. It takes no memory.
    pub fn holds(&self, unit: u8, cycle: u16) -> bool
        ensures { IsTrue result ↔ Holds self.now unit cycle }
    {
        row_at(&self.rows, usize::from(cycle)).has(usize::from(unit))
    }

    /// Whether both grids have the same pairs, whatever their widths.
    pub fn same<const M: usize>(&self, other: &GridOf<M>) -> bool
        ensures { IsTrue result ↔ (self.now ≡ other.now) }
    {
        same_rows(&self.rows, &other.rows)
    }

    /// Feeds the grid to a hasher, the same for equal grids, whatever their widths.
    pub fn feed<H: Hasher>(&self, state: &mut H)
        ensures { state.new ≡ fold H.write state.old (fed_for self.now) }
    {
        self.rows.hash(state);
    }

    /// The order of the ascending lists of pairs, whatever the widths.
    pub fn compare<const M: usize>(&self, other: &GridOf<M>) -> Ordering
        ensures { result ≡ grid_cmp self.now other.now }
    {
        order(&self.rows, &other.rows)
    }
}

// Whether some unit is in both in some cycle. What only one of them has rows for is not read.
fn share_unit<const N: usize, const M: usize>(first: &[Row<N>], second: &[Row<M>]) -> bool
    ensures { IsTrue result ↔ ShareUnit first.now second.now }
{
    for (one, other) in first.iter().zip(second) {
        if one.meets(*other) {
            return true;
        }
    }
    false
}

// Whether the row of that cycle, if there is one, has a unit of another.
fn row_meets<const N: usize>(rows: &[Row<N>], cycle: usize, units: Row<4>) -> bool
    ensures { IsTrue result ↔ RowsMeet (slice_index rows.now cycle) units }
{
    match rows.get(cycle) {
        Some(row) => row.meets(units),
        None => false,
    }
}

// Whether both have the same units in each cycle.
fn same_rows<const N: usize, const M: usize>(first: &[Row<N>], second: &[Row<M>]) -> bool
    ensures { IsTrue result ↔ (first.now ≡ second.now) }
{
    if first.len() != second.len() {
        return false;
    }
    for cycle in 0..first.len() {
        if !first[cycle].same(second[cycle]) {
            return false;
        }
    }
    true
}

// The units of both, cycle by cycle.
fn joined<const N: usize, const M: usize, const K: usize>(
    alloc: Global,
    first: &[Row<N>],
    second: &[Row<M>],
) -> Result<Vec<Row<K>>, NoMemory>
    requires wide { N ≤ K }
    requires other { M ≤ K }
    requires few { K ≤ 4 }
    requires first { IsRows first.now }
    requires second { IsRows second.now }
    ensures rows { IfOk result (λ rows. IsRows rows.items) }
    ensures units { IfOk result (λ rows. IsJoined first.now second.now rows.items) }
{
    let mut rows = widened(alloc, first)?;
    lengthen(&mut rows, second.len())?;
    overlay(&mut rows, second);
    Ok(rows)
}

// Adds the units of rows that are no wider, cycle by cycle. Where memory ran out all is as it was.
fn join_rows<const N: usize, const M: usize>(
    rows: &mut Vec<Row<N>>,
    others: &[Row<M>],
) -> Result<(), NoMemory>
    requires wide { M ≤ N }
    requires few { N ≤ 4 }
    requires first { IsRows rows.old.items }
    requires second { IsRows others.now }
    ensures rows { IsRows rows.new.items }
    ensures units { OnOk result (IsJoined rows.old.items others.now rows.new.items) }
    ensures same { OnErr result (rows.new.items ≡ rows.old.items) }
{
    let before = rows.len();
    match lengthen(rows, others.len()) {
        Ok(()) => {
            overlay(rows, others);
            Ok(())
        }
        Err(full) => {
            rows.truncate(before);
            Err(full)
        }
    }
}

// The same rows, of another width.
fn widened<const N: usize, const K: usize>(
    alloc: Global,
    rows: &[Row<N>],
) -> Result<Vec<Row<K>>, NoMemory>
    requires wide { N ≤ K }
    requires few { K ≤ 4 }
    ensures { IfOk result (λ all. all.items ≡ rows.now) }
{
    let mut all = Vec::with_capacity(alloc, rows.len())?;
    for row in rows {
        all.push(row.widened())?;
    }
    Ok(all)
}

// Adds the units of rows that are no wider and no more.
fn overlay<const K: usize, const M: usize>(rows: &mut Vec<Row<K>>, others: &[Row<M>])
    requires other { M ≤ K }
    requires few { length others.now ≤ vec_len rows.old }
    ensures length { vec_len rows.new ≡ vec_len rows.old }
    ensures units { IsJoined rows.old.items others.now rows.new.items }
{
    for cycle in 0..others.len() {
        rows[cycle] = rows[cycle].join(others[cycle]);
    }
}

// Drops the first row, if there is one.
fn drop_first<const N: usize>(rows: &mut Vec<Row<N>>)
    ensures { rows.new.items ≡ drop 1 rows.old.items }
{
    if !rows.is_empty() {
        let _first = rows.remove(0);
    }
}

// The rows of these pairs.
fn rows_of<const N: usize>(alloc: Global, pairs: &[(u8, u16)]) -> Result<Vec<Row<N>>, NoMemory>
    requires few { N ≤ 4 }
    requires units { All (λ pair. pair.0 < 64 * N) pairs.now }
    requires cycles { All (λ pair. pair.1 < CYCLES) pairs.now }
    ensures rows { IfOk result (λ rows. IsRows rows.items) }
    ensures units { IfOk result (λ rows. HasJust pairs.now rows.items) }
{
    let mut rows = Vec::new(alloc);
    for pair in pairs {
        put(&mut rows, pair.0, pair.1)?;
    }
    Ok(rows)
}

// Adds a unit in a cycle.
fn put<const N: usize>(rows: &mut Vec<Row<N>>, unit: u8, cycle: u16) -> Result<(), NoMemory>
    requires few { N ≤ 4 }
    requires rows { IsRows rows.old.items }
    requires unit { unit < 64 * N }
    requires cycle { cycle < CYCLES }
    ensures rows { OnOk result (IsRows rows.new.items) }
    ensures units { OnOk result (GainsUnit unit cycle rows.old.items rows.new.items) }
{
    let place = usize::from(cycle);
    lengthen(rows, place + 1)?;
    rows[place] = rows[place].add(unit);
    Ok(())
}

// Adds rows with no unit, up to that length.
fn lengthen<const N: usize>(rows: &mut Vec<Row<N>>, length: usize) -> Result<(), NoMemory>
    requires few { N ≤ 4 }
    ensures length { OnOk result (vec_len rows.new ≡ max (vec_len rows.old) length) }
    ensures units { OnOk result (HasSameUnits rows.old.items rows.new.items) }
    ensures start { take (vec_len rows.old) rows.new.items ≡ rows.old.items }
{
    while rows.len() < length {
        rows.push(Row::empty())?;
    }
    Ok(())
}
