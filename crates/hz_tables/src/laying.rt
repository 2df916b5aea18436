//! Rows that are laid into one another.

ghost use Rattle.std.specs.Prelude.{[], ◌≡◌, ◌≢◌, ◌+◌, ◌-◌, ◌*◌, ◌++◌, ◌<◌, ◌≤◌, ◌==◌, ◌&&◌, ◌^◌, ℕ, if◌then◌else◌, Some, None, true, false, is_some, length, slice_index, replicate, OnOk, IfOk, IfSome};
ghost use Rattle.std.specs.List.{Contains, list_all};
ghost use Rattle.hz_pipeline_model.specs.Tables.Tables.{entry};
ghost use Rattle.hz_tables.specs.Laying.{is_free, Lays, IsLaid};
ghost use Rattle.hz_tables.specs.Shape.{comb_of};

use crate::{NoMemory, Plain};
use std::alloc::Global;

/// How many places are looked at for a row: so many bases before the end are tried for one entry, half of them for two.
const LOOKS: usize = 1_024;

/// A comb that is being made.
#[derive(Drop)]
pub struct Laying {
    /// For each state whose row is laid, the place of its first entry.
    pub bases: Vec<u32>,
    /// For each place its state, or the number of all states where it has none.
    pub owners: Vec<u32>,
    /// For each place the next state.
    pub targets: Vec<u32>,
}

/// Whether a place has no owner, which is reported by the number `free`. After the end no place has one.
fn is_free(owners: &[u32], free: u32, place: usize) -> bool
    ensures { result ≡ is_free owners.now free place }
{
    place >= owners.len() || owners[place] == free
}

/// Whether the places of these columns have no owner, from a base on.
fn fits(owners: &[u32], free: u32, base: usize, columns: &[u32]) -> bool
    requires base { base < 2 ^ 32 }
    ensures { result ≡ list_all (λ column. is_free owners.now free (base + column)) columns.now }
{
    columns
        .iter()
        .all(|column| is_free(owners, free, base + *column as usize))
}

/// How many bases before the end are tried for a row of so many places with so many entries: those of a row like it, and more
/// where there are few entries. So the search of a row costs about the same, however full rows are.
fn tries(width: usize, entries: usize) -> usize {
    width.max(LOOKS / entries.max(1))
}

/// The first base from which on the places of these columns have no owner, of those that are tried.
fn base_for(owners: &[u32], free: u32, width: usize, columns: &[u32]) -> usize
    requires few { length owners.now < 2 ^ 32 }
    ensures low { result ≤ length owners.now }
    ensures fits { list_all (λ column. is_free owners.now free (result + column)) columns.now ≡ true }
{
    let end = owners.len();
    for base in end.saturating_sub(tries(width, columns.len()))..end {
        if fits(owners, free, base, columns) {
            return base;
        }
    }
    end
}

/// The columns of a row whose entries are not none.
fn columns_of(plain: &Plain, state: u32, columns: &mut Vec<u32>) -> Result<(), NoMemory>
    requires state { state < length plain.now.rows }
    ensures all { OnOk result ((column : ℕ) → column ≤ plain.now.columns → entry plain.now.rows state column ≢ None → Contains columns.new.items column) }
{
    columns.clear();
    for column in 0..=plain.columns() {
        if plain.step(state, column).is_some() {
            columns.push(column)?;
        }
    }
    Ok(())
}

/// Lays an entry at a place, unless it is none.
fn lay_entry(owners: &mut [u32], targets: &mut [u32], place: usize, state: u32, next: Option<u32>)
    requires same { length targets.old ≡ length owners.old }
    requires within { place < length owners.old }
    ensures owner { (p : ℕ) → slice_index owners.new p ≡ (if (p == place) && is_some next then state else slice_index owners.old p) }
    ensures target { IfSome next (λ target. slice_index targets.new place ≡ target) }
    ensures others { (p : ℕ) → ((p == place) && is_some next) ≡ false → slice_index targets.new p ≡ slice_index targets.old p }
    ensures owners { length owners.new ≡ length owners.old }
    ensures targets { length targets.new ≡ length targets.old }
{
    if let Some(target) = next {
        owners[place] = state;
        targets[place] = target;
    }
}

/// Lays the entries of a row from a base on.
fn lay(owners: &mut [u32], targets: &mut [u32], plain: &Plain, state: u32, base: usize)
    requires state { state < length plain.now.rows }
    requires same { length targets.old ≡ length owners.old }
    requires within { base + plain.now.columns < length owners.old }
    ensures lays { Lays (entry plain.now.rows state) (plain.now.columns + 1) base state owners.old targets.old owners.new targets.new }
{
    for column in 0..plain.columns() + 1 {
        lay_entry(
            owners,
            targets,
            base + column as usize,
            state,
            plain.step(state, column),
        );
    }
}

impl Laying {
    /// No row is laid yet.
    fn new(alloc: Global) -> Laying
        ensures bases { result.bases.items ≡ [] }
        ensures owners { result.owners.items ≡ [] }
        ensures targets { result.targets.items ≡ [] }
    {
        Laying {
            bases: Vec::new(alloc),
            owners: Vec::new(alloc),
            targets: Vec::new(alloc),
        }
    }

    /// Makes so many places, where there are fewer. Each that is new has no owner.
    fn grow(&mut self, places: usize, free: u32) -> Result<(), NoMemory>
        requires same { length self.old.targets.items ≡ length self.old.owners.items }
        ensures owners { OnOk result (self.new.owners.items ≡ self.old.owners.items ++ replicate (places - length self.old.owners.items) free) }
        ensures targets { OnOk result (self.new.targets.items ≡ self.old.targets.items ++ replicate (places - length self.old.owners.items) 0) }
        ensures bases { self.new.bases.items ≡ self.old.bases.items }
    {
        if self.owners.len() < places {
            self.owners.resize(places, free)?;
            self.targets.resize(places, 0)?;
        }
        Ok(())
    }

    /// A base from which on the places of these columns have no owner, for a row of so many places.
    fn base_of(&self, free: u32, width: usize, columns: &Vec<u32>) -> usize
        requires few { length self.now.owners.items < 2 ^ 32 }
        ensures low { result ≤ length self.now.owners.items }
        ensures fits { list_all (λ column. is_free self.now.owners.items free (result + column)) columns.now.items ≡ true }
    {
        base_for(&self.owners, free, width, columns)
    }

    /// Lays the entries of a row from a base on.
    fn lay_at(&mut self, plain: &Plain, state: u32, base: usize)
        requires state { state < length plain.now.rows }
        requires same { length self.old.targets.items ≡ length self.old.owners.items }
        requires within { base + plain.now.columns < length self.old.owners.items }
        ensures lays { Lays (entry plain.now.rows state) (plain.now.columns + 1) base state self.old.owners.items self.old.targets.items self.new.owners.items self.new.targets.items }
        ensures bases { self.new.bases.items ≡ self.old.bases.items }
    {
        lay(&mut self.owners, &mut self.targets, plain, state, base);
    }

    /// Lays the row of the next state.
    fn lay_row(&mut self, plain: &Plain, state: u32, columns: &mut Vec<u32>) -> Result<(), NoMemory>
        requires targets { (row column next : ℕ) → entry plain.now.rows row column ≡ Some next → next < length plain.now.rows }
        requires state { state < length plain.now.rows }
        requires next { length self.old.bases.items ≡ state }
        requires laid { IsLaid plain.now.rows (comb_of plain.now.columns self.old) }
        requires few { length self.old.owners.items ≤ state * (plain.now.columns + 1) }
        ensures more { OnOk result (length self.new.bases.items ≡ state + 1) }
        ensures laid { OnOk result (IsLaid plain.now.rows (comb_of plain.now.columns self.new)) }
        ensures few { OnOk result (length self.new.owners.items ≤ (state + 1) * (plain.now.columns + 1)) }
    {
        let free = plain.states();
        columns_of(plain, state, columns)?;
        let width = plain.columns() as usize + 1;
        let base = self.base_of(free, width, columns);
        self.grow(base + width, free)?;
        self.lay_at(plain, state, base);
        self.bases.push(base as u32)?;
        Ok(())
    }
}

/// The rows of a table, laid into one another.
pub fn lay_all(alloc: Global, plain: &Plain) -> Result<Laying, NoMemory>
    requires targets { (row column next : ℕ) → entry plain.now.rows row column ≡ Some next → next < length plain.now.rows }
    ensures all { IfOk result (λ laying. length laying.bases.items ≡ length plain.now.rows) }
    ensures laid { IfOk result (λ laying. IsLaid plain.now.rows (comb_of plain.now.columns laying)) }
    ensures few { IfOk result (λ laying. length laying.owners.items ≤ length plain.now.rows * (plain.now.columns + 1)) }
{
    let mut laying = Laying::new(alloc);
    let mut columns = Vec::new(alloc);
    for state in 0..plain.states() {
        laying.lay_row(plain, state, &mut columns)?;
    }
    Ok(laying)
}
