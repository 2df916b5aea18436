//! A row: the units that are reserved in one cycle.
ghost use Rattle.std.specs.Prelude.{◌≡◌, ◌≢◌, ◌↔◌, ◌⊎◌, ◌<◌, ◌≤◌, ◌*◌, ◌^◌, ℕ, IsTrue};
ghost use Rattle.hz_grid.specs.declared.rows.TheConstants.{UNITS};
ghost use Rattle.hz_grid.specs.Rows.{HasUnit, RowsMeet, IsWithin, DifferAt, HasAbove};

use crate::words;
use std::hash::{Hash, Hasher};
use std::marker::Model;

/// How many units an automaton may have: a unit's number is below it.
pub const UNITS: usize = 256;

/// A set of units, each below 64 times `N`, a word for 64 of them.
#[derive(Clone, Copy, Debug)]
pub struct Row<const N: usize> {
    words: [u64; N],
}

impl<const N: usize> Model for Row<N> {
    ghost use Rattle.std.specs.Prelude.{ℕ};
    ghost use Rattle.std.proofs.Common.{ap};
    ghost use Rattle.hz_grid.specs.Words.{row_of, words_of, IsWords, words_of-row_of};

    ghost Value = { ℕ };

    ghost view = { λ row. row_of row.words };

    ghost invariant = { λ row. IsWords N row.words };

    ghost inverse = { λ number. record { words = words_of N number } };

    ghost inverse_ok = { λ row is. ap (λ words. record { words = words }) (words_of-row_of N row.words is) };
}

impl<const N: usize> Row<N> {
    /// The row with no unit.
    pub fn empty() -> Row<N>
        requires { N ≤ 4 }
        ensures { (unit : ℕ) → ¬ HasUnit result unit }
    {
        Row { words: [0; N] }
    }

    /// The row with that unit too.
    pub fn add(self, unit: u8) -> Row<N>
        requires { unit < 64 * N }
        ensures { (other : ℕ) → HasUnit result other ↔ (HasUnit self.entry other ⊎ (other ≡ unit)) }
    {
        let mut words = self.words;
        words::add(&mut words, usize::from(unit));
        Row { words }
    }

    /// Whether the unit is in the row.
    pub fn holds(self, unit: u8) -> bool
        ensures unit { IsTrue result ↔ HasUnit self.entry unit }
        ensures below { IsTrue result → unit < 64 * N }
    {
        words::holds(&self.words, usize::from(unit))
    }

    /// Whether no unit is in the row.
    pub fn is_empty(self) -> bool
        ensures { IsTrue result ↔ ((unit : ℕ) → ¬ HasUnit self.entry unit) }
    {
        words::is_empty(&self.words)
    }

    /// Whether some unit is in both rows.
    pub fn meets<const M: usize>(self, other: Row<M>) -> bool
        ensures { IsTrue result ↔ RowsMeet self.entry other.entry }
    {
        words::meet(&self.words, &other.words)
    }

    /// Whether each unit of the row is in the other.
    pub fn within<const M: usize>(self, other: Row<M>) -> bool
        ensures { IsTrue result ↔ IsWithin self.entry other.entry }
    {
        words::within(&self.words, &other.words)
    }

    /// Whether both rows have the same units.
    pub(crate) fn same<const M: usize>(self, other: Row<M>) -> bool
        ensures { IsTrue result ↔ (self.entry ≡ other.entry) }
    {
        words::same(&self.words, &other.words)
    }

    /// The units of both rows, of which the other is no wider.
    pub fn join<const M: usize>(self, other: Row<M>) -> Row<N>
        requires { M ≤ N }
        ensures { (unit : ℕ) → HasUnit result unit ↔ (HasUnit self.entry unit ⊎ HasUnit other.entry unit) }
    {
        let mut words = self.words;
        words::join(&mut words, &other.words);
        Row { words }
    }

    /// The row with as many words or more.
    pub(crate) fn widened<const M: usize>(self) -> Row<M>
        requires wider { N ≤ M }
        requires few { M ≤ 4 }
        ensures { result ≡ self.entry }
    {
        let mut words = [0; M];
        words::join(&mut words, &self.words);
        Row { words }
    }

    /// The row with four words.
    pub(crate) fn wide(self) -> Row<4>
        ensures { result ≡ self.entry }
    {
        let mut words = [0; 4];
        words::join(&mut words, &self.words);
        Row { words }
    }

    /// The lowest unit that is in one of the rows alone.
    pub(crate) fn first_difference<const M: usize>(self, other: Row<M>) -> usize
        requires { self ≢ other }
        ensures { DifferAt self.entry other.entry result }
    {
        words::first_difference(&self.words, &other.words)
    }

    /// Whether a unit above this one is in the row.
    pub(crate) fn has_above(self, unit: usize) -> bool
        ensures { IsTrue result ↔ HasAbove self.entry unit }
    {
        words::has_above(&self.words, unit)
    }

    /// Whether that unit is in the row.
    pub(crate) fn has(self, unit: usize) -> bool
        ensures { IsTrue result ↔ HasUnit self.entry unit }
    {
        words::holds(&self.words, unit)
    }
}

/// Rows with the same units are equal.
pub fn rows_are_sets_of_units()
    ensures { (first second : ℕ) → ((unit : ℕ) → HasUnit first unit ↔ HasUnit second unit) → first ≡ second }
{}

impl<const N: usize> PartialEq for Row<N> {
    ghost use Rattle.std.specs.Prelude.{nat_eq};
    ghost use Rattle.std.specs.Cmp.{partial_equiv_from_equiv, nat_eq_equiv};

    ghost eq = { nat_eq };

    ghost laws = { partial_equiv_from_equiv nat_eq_equiv };

    fn eq(&self, other: &Row<N>) -> bool {
        self.same(*other)
    }
}

impl<const N: usize> Eq for Row<N> {
    ghost use Rattle.std.specs.Cmp.{nat_eq_equiv};

    ghost laws = { nat_eq_equiv };
}

impl<const N: usize> Hash for Row<N> {
    ghost use Rattle.hz_grid.specs.Words.{fed_row, same_rows_are_fed_alike};

    ghost hash_input = { fed_row };

    ghost respects_eq = { same_rows_are_fed_alike.fed };

    fn hash<H: Hasher>(&self, state: &mut H) {
        words::word_at(&self.words, 0).hash(state);
        words::word_at(&self.words, 1).hash(state);
        words::word_at(&self.words, 2).hash(state);
        words::word_at(&self.words, 3).hash(state);
    }
}
