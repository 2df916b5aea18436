//! How many alternatives there are, and how long the longest is.

ghost use Rattle.std.specs.Prelude.{◌≤◌, ◌+◌};
ghost use Rattle.hz_base_model.specs.Limits.{cycle_limit};
ghost use Rattle.hz_description_model.specs.Reservations.Limits.{alternative_limit};

use crate::mark::Mark;
use hz_grid::CYCLES;

/// So many alternatives may a reservation or class have. This profile, docs/RULES.md, 'Limits'.
pub const ALTERNATIVE_LIMIT: u32 = 4096;

/// For so many cycles may an alternative run. This profile, docs/RULES.md, 'Limits'.
pub const CYCLE_LIMIT: u32 = CYCLES as u32;

/// How many alternatives there are, and for how many cycles the longest runs: each number above its limit is reported as the
/// limit and one.
#[derive(Clone, Copy, Debug, PartialEq, Eq)]
pub struct Extent {
    pub count: u32,
    pub longest: u32,
    ghost some: { 1 ≤ count },
    ghost few: { count ≤ alternative_limit + 1 },
    ghost runs: { 1 ≤ longest },
    ghost short: { longest ≤ cycle_limit + 1 },
}

impl Extent {
    ghost use Rattle.std.specs.Prelude.{◌≡◌, ◌≤◌, List};
    ghost use Rattle.hz_altern.specs.Extents.{reported, cut_extent, joined_extents, repeated_extent};
    ghost use Rattle.hz_altern.specs.Shapes.{alternatives};
    ghost use Rattle.hz_description_model.specs.Reservations.AlternativeLists.{AreSound, extent_of};

    /// The extent of so many alternatives, of which the longest runs for so many cycles.
    pub(crate) fn cut(count: u32, longest: u32) -> Extent
        requires some { 1 ≤ count }
        requires runs { 1 ≤ longest }
        ensures { reported result ≡ cut_extent count longest }
    {
        Extent {
            count: count.min(ALTERNATIVE_LIMIT + 1),
            longest: longest.min(CYCLE_LIMIT + 1),
        }
    }

    /// The extent of two parts with a mark between them.
    pub(crate) fn joined(self, mark: Mark, other: Extent) -> Extent
        ensures { reported result ≡ joined_extents mark (reported self) (reported other) }
    {
        let choices = self.count * other.count;
        let longest = self.longest.max(other.longest);
        match mark {
            Mark::Comma => Extent::cut(choices, self.longest + other.longest),
            Mark::Bar => Extent::cut(self.count + other.count, longest),
            Mark::Plus => Extent::cut(choices, longest),
        }
    }

    /// The extent of so many copies one after another.
    pub(crate) fn repeated(self, times: u32) -> Extent
        requires { 1 ≤ times }
        ensures { reported result ≡ repeated_extent times (reported self) }
    {
        Extent::cut(
            self.count.saturating_pow(times),
            self.longest.saturating_mul(times),
        )
    }
}
