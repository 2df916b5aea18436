//! The marks between the parts of an expression.

ghost use Rattle.std.specs.Prelude.{◌≡◌};
ghost use Rattle.hz_check_reservations.specs.Lengths.{cut_length};

use hz_altern::CYCLE_LIMIT;

/// What stands between parts.
#[derive(Clone, Copy, Debug, PartialEq, Eq)]
pub enum Mark {
    /// `,`: one after another.
    Comma,
    /// `|`: one of them.
    Bar,
    /// `+`: all from the same cycle on.
    Plus,
}

/// A length, where one above the limit is reported as the limit and one.
pub fn cut(cycles: u32) -> u32
    ensures { result ≡ cut_length cycles }
{
    cycles.min(CYCLE_LIMIT + 1)
}

impl Mark {
    ghost use Rattle.std.specs.Prelude.{◌≡◌};
    ghost use Rattle.hz_check_reservations.specs.Habits.{joined_shortest, joined_longest};

    /// For how many cycles the shortest alternative of two parts runs, by the shortest of each.
    pub fn shortest(self, first: u32, second: u32) -> u32
        ensures { result ≡ joined_shortest self first second }
    {
        match self {
            Mark::Comma => cut(first.saturating_add(second)),
            Mark::Bar => first.min(second),
            Mark::Plus => first.max(second),
        }
    }

    /// For how many cycles the longest runs, by the longest of each.
    pub fn longest(self, first: u32, second: u32) -> u32
        ensures { result ≡ joined_longest self first second }
    {
        match self {
            Mark::Comma => cut(first.saturating_add(second)),
            Mark::Bar | Mark::Plus => first.max(second),
        }
    }
}
