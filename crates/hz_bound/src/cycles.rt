//! Ranges of cycles, and whether a grid takes a unit in a cycle.

ghost use Rattle.std.specs.Prelude.{◌≡◌};
ghost use Rattle.hz_bound.specs.Ranges.{has, joined};

use hz_grid::Grid;

/// The first and the last of some cycles.
#[derive(Clone, Copy, Debug, PartialEq, Eq)]
pub struct Range {
    pub first: u32,
    pub last: u32,
}

/// The range of the cycles of both.
pub fn join_ranges(one: Option<Range>, other: Option<Range>) -> Option<Range>
    ensures { result ≡ joined one other }
{
    match one {
        None => other,
        Some(a) => match other {
            None => Some(a),
            Some(b) => Some(Range {
                first: a.first.min(b.first),
                last: a.last.max(b.last),
            }),
        },
    }
}

/// Whether a grid takes a unit in a cycle.
pub fn takes(grid: &Grid, unit: u8, cycle: u16) -> bool
    ensures { result ≡ has grid.now unit cycle }
{
    grid.holds(unit, cycle)
}
