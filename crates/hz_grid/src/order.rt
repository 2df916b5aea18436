//! The order of grids.
ghost use Rattle.std.specs.Prelude.{◌≡◌, ◌<◌, ◌≤◌, ℕ, length, slice_index, IsTrue};
ghost use Rattle.hz_base_model.specs.Pairs.{grid_cmp};
ghost use Rattle.hz_grid.specs.Orders.{HasLater, DifferFirst};
ghost use Rattle.hz_grid.specs.Stored.{IsRows, pairs_from};
ghost use Rattle.hz_grid.specs.declared.grid_of.TheConstants.{CYCLES};
ghost use Rattle.hz_grid.specs.declared.rows.TheConstants.{UNITS};

use crate::rows::Row;
use std::cmp::Ordering;

/// The order of the ascending lists of pairs, of the grids with these rows.
pub(crate) fn order<const N: usize, const M: usize>(first: &[Row<N>], second: &[Row<M>]) -> Ordering
    requires first { IsRows first.now }
    requires second { IsRows second.now }
    ensures { result ≡ grid_cmp (pairs_from 0 first.now) (pairs_from 0 second.now) }
{
    for cycle in 0..first.len().max(second.len()) {
        let one = row_at(first, cycle);
        let other = row_at(second, cycle);
        if one != other {
            let unit = one.first_difference(other);
            return decided(first, second, cycle, unit);
        }
    }
    Ordering::Equal
}

// Which is first, where this is the first pair that only one of them has. That one is first, unless the other has no
// later pair.
fn decided<const N: usize, const M: usize>(
    first: &[Row<N>],
    second: &[Row<M>],
    cycle: usize,
    unit: usize,
) -> Ordering
    requires first { IsRows first.now }
    requires second { IsRows second.now }
    requires cycle { cycle < CYCLES }
    requires differ { DifferFirst first.now second.now cycle unit }
    ensures { result ≡ grid_cmp (pairs_from 0 first.now) (pairs_from 0 second.now) }
{
    if row_at(first, cycle).has(unit) {
        if has_later(second, cycle, unit) {
            Ordering::Less
        } else {
            Ordering::Greater
        }
    } else if has_later(first, cycle, unit) {
        Ordering::Greater
    } else {
        Ordering::Less
    }
}

// Whether there is a pair after the one of this unit and cycle.
fn has_later<const N: usize>(rows: &[Row<N>], cycle: usize, unit: usize) -> bool
    requires rows { IsRows rows.now }
    requires cycle { cycle < CYCLES }
    ensures some { IsTrue result → ¬ ¬ HasLater rows.now cycle unit }
    ensures none { HasLater rows.now cycle unit → IsTrue result }
{
    rows.len() > cycle + 1 || row_at(rows, cycle).has_above(unit)
}

/// The units of that cycle: none past the last row.
pub(crate) fn row_at<const N: usize>(rows: &[Row<N>], cycle: usize) -> Row<4>
    ensures { result ≡ slice_index rows.now cycle }
{
    match rows.get(cycle) {
        Some(row) => row.wide(),
        None => Row::empty(),
    }
}
