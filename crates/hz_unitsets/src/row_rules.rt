//! One set statement over rows.

ghost use Rattle.std.specs.Prelude.{◌≡◌, ◌↔◌, ◌<◌, ℕ, map, All, IfOk, IsTrue};
ghost use Rattle.hz_description_model.specs.Reservations.Sets.{AllowsIn, HoldsSome, HoldsPattern};
ghost use Rattle.hz_grid.specs.Rows.{HasUnit, IsWithin};
ghost use Rattle.hz_unitsets.specs.SetRules.{statement_of, IsInRange, in_order, ordered};
ghost use Rattle.hz_unitsets.specs.RowRules.{statement_in, IsRow, IsBounded, IsTrigger, Breaks, StandsIn, StandsAt, HasKey, AreKeys, IsWanted, IsSummed};
ghost use Rattle.hz_grid.specs.Stored.{units_of};

use crate::set_rules::{SetKind, SetRule};
pub use hz_grid::NoMemory;
use hz_grid::{Grid, Row, UNITS};
use indexmap::IndexSet;
use std::alloc::Global;

/// One statement, its units and each of its patterns as a row, equal ones once.
#[derive(Drop, PartialEq, Eq, Hash, Debug)]
pub(crate) struct Rule {
    kind: SetKind,
    units: Row<4>,
    patterns: Vec<Row<4>>,
}

/// What tells of many cycles at once that rules allow them: none of the keys stands there or is added, and all that is wanted
/// stands there.
#[derive(Clone, Copy, Debug)]
pub(crate) struct Summary {
    pub keys: Row<4>,
    pub wanted: Row<4>,
}

impl Rule {
    /// The rule of this statement.
    pub(crate) fn build(alloc: Global, set: &SetRule) -> Result<Rule, NoMemory>
        requires { IsInRange set.now }
        ensures bounded { IfOk result IsBounded }
        ensures statement { IfOk result (λ rule. statement_in rule ≡ ordered (statement_of set.now)) }
    {
        let mut patterns = IndexSet::new(alloc);
        for pattern in &set.patterns {
            patterns.insert(row_of(pattern))?;
        }
        Ok(Rule {
            kind: set.kind,
            units: row_of(&set.units),
            patterns: rows_in(alloc, patterns)?,
        })
    }

    /// Whether the rule allows a cycle with these rows: what stood there, what is added, and all of them.
    pub(crate) fn allows_rows(&self, source: Row<4>, added: Row<4>, all: Row<4>) -> bool
        requires { IsBounded self.now }
        ensures { IsTrue result ↔ AllowsIn (statement_in self.now) (HasUnit source) (HasUnit added) (HasUnit all) }
    {
        match self.kind {
            SetKind::Exclusion => !(self.holds_some(all) && self.holds_pattern(all)),
            SetKind::Presence => !self.holds_some(added) || self.holds_pattern(source),
            SetKind::FinalPresence => !self.holds_some(added) || self.holds_pattern(all),
            SetKind::Absence => !(self.holds_some(added) && self.holds_pattern(source)),
            SetKind::FinalAbsence => !(self.holds_some(added) && self.holds_pattern(all)),
        }
    }

    /// Whether the source breaks the rule: it is an exclusion, and in some cycle a unit stands with a pattern of it.
    pub(crate) fn is_broken(&self, source: &Grid) -> bool
        requires { IsBounded self.now }
        ensures { IsTrue result ↔ Breaks (statement_in self.now) source.now }
    {
        match self.kind {
            SetKind::Exclusion => self.stands_in(source),
            _ => false,
        }
    }

    // Whether in some cycle a unit of the rule stands with a pattern of it.
    fn stands_in(&self, source: &Grid) -> bool
        requires { IsBounded self.now }
        ensures { IsTrue result ↔ StandsIn (statement_in self.now) source.now }
    {
        for cycle in 0..source.length() {
            if self.stands_at(source, cycle) {
                return true;
            }
        }
        false
    }

    // The same of that cycle.
    fn stands_at(&self, source: &Grid, cycle: u16) -> bool
        requires { IsBounded self.now }
        ensures { IsTrue result ↔ StandsAt (statement_in self.now) source.now cycle }
    {
        let row = source.row(cycle);
        self.holds_some(row) && self.holds_pattern(row)
    }

    /// The units whose addition may break the rule: its own, and of an exclusion those of its patterns.
    pub(crate) fn triggers(&self) -> Row<4>
        requires { IsBounded self.now }
        ensures { (unit : ℕ) → IsTrigger (statement_in self.now) unit → HasUnit result unit }
    {
        match self.kind {
            SetKind::Exclusion => joined(self.units, &self.patterns),
            _ => self.units,
        }
    }

    /// What tells of many cycles at once that the rule allows them.
    pub(crate) fn summary(&self) -> Summary
        requires { IsBounded self.now }
        ensures { IsSummed (statement_in self.now) result.keys result.wanted }
    {
        match self.kind {
            SetKind::Presence => self.wanting(),
            SetKind::FinalPresence => self.wanting(),
            _ => self.forbidding(),
        }
    }

    // The same of a rule that wants a pattern: its first. Where it has none, its units tell.
    fn wanting(&self) -> Summary
        requires { IsBounded self.now }
        ensures { IsWanted (statement_in self.now) self.now.units result.keys result.wanted }
    {
        let wanted = first_of(&self.patterns);
        if self.holds_pattern(wanted) {
            return Summary {
                keys: Row::empty(),
                wanted,
            };
        }
        Summary {
            keys: self.units,
            wanted,
        }
    }

    // The same of a rule that forbids patterns: a unit of each. Where one has none, the rule's units tell.
    fn forbidding(&self) -> Summary
        ensures { AreKeys self.now.patterns.items self.now.units result.keys }
    {
        let keys = keys_of(&self.patterns);
        let wanted = Row::empty();
        if each_meets(&self.patterns, keys) {
            return Summary { keys, wanted };
        }
        Summary {
            keys: self.units,
            wanted,
        }
    }

    // Whether the row has a unit of the rule.
    fn holds_some(&self, row: Row<4>) -> bool
        requires { IsBounded self.now }
        ensures { IsTrue result ↔ HoldsSome (units_of self.now.units) (HasUnit row) }
    {
        self.units.meets(row)
    }

    // Whether some pattern is wholly in the row.
    fn holds_pattern(&self, row: Row<4>) -> bool
        requires { IsBounded self.now }
        ensures { IsTrue result ↔ HoldsPattern (map units_of self.now.patterns.items) (HasUnit row) }
    {
        self.patterns.iter().any(|pattern| pattern.within(row))
    }
}

// The rows in their order. None is copied.
fn rows_in(alloc: Global, rows: IndexSet<Row<4>>) -> Result<Vec<Row<4>>, NoMemory>
    ensures { IfOk result (λ all. all.items ≡ rows.keys) }
{
    rows.into_iter().collect(alloc)
}

// The row of these units.
fn row_of(units: &[u8]) -> Row<4>
    requires { All (λ unit. unit < UNITS) units.now }
    ensures row { IsRow result }
    ensures units { units_of result ≡ in_order units.now }
{
    let mut row = Row::empty();
    for unit in units {
        row = row.add(*unit);
    }
    row
}

// The units of a row and of others.
fn joined(units: Row<4>, others: &[Row<4>]) -> Row<4>
    ensures units { IsWithin units result }
    ensures others { All (λ other. IsWithin other result) others.now }
{
    let mut all = units;
    for other in others {
        all = all.join(*other);
    }
    all
}

// The first of the rows, if there is one.
fn first_of(rows: &[Row<4>]) -> Row<4> {
    match rows.first() {
        Some(row) => *row,
        None => Row::empty(),
    }
}

// A unit of each row.
fn keys_of(rows: &[Row<4>]) -> Row<4> {
    let mut keys = Row::empty();
    for row in rows {
        keys = keys.join(key_of(*row));
    }
    keys
}

// The first unit of the row.
fn key_of(row: Row<4>) -> Row<4> {
    for unit in 0..UNITS {
        if row.holds(unit as u8) {
            return Row::empty().add(unit as u8);
        }
    }
    Row::empty()
}

// Whether each of the rows has one of the keys.
fn each_meets(rows: &[Row<4>], keys: Row<4>) -> bool
    ensures { IsTrue result → All (λ row. HasKey row keys) rows.now }
{
    for row in rows {
        if !has_key(row, keys) {
            return false;
        }
    }
    true
}

// Whether the row has one of the keys.
fn has_key(row: &Row<4>, keys: Row<4>) -> bool
    ensures { IsTrue result ↔ HasKey row.now keys }
{
    row.meets(keys)
}
