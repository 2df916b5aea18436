//! What is kept of an expression: its habits.

use crate::rules::mark::{Mark, cut};
use crate::rules::spread::Spread;

/// What the two rules ask of an expression and of its alternatives. A length above the limit of cycles is reported as the limit
/// and one.
#[derive(Clone, Copy, Debug, PartialEq, Eq)]
pub struct Habits {
    /// Of how many automata the units of all alternatives are.
    pub spread: Spread,
    /// For how many cycles the shortest alternative runs.
    pub shortest: u32,
    /// For how many cycles the longest runs.
    pub longest: u32,
    /// Somewhere in the expression, names replaced, an alternation holds units of two automata.
    pub mixed: bool,
    /// Somewhere in it a part before a comma, or one that is repeated, has two lengths.
    pub uneven: bool,
}

impl Habits {
    ghost use Rattle.std.specs.Prelude.{◌≡◌, ◌≤◌, ◌&&◌};
    ghost use Rattle.hz_check_reservations.specs.Habits.{habits_of_unit, idle_habits, joined_habits, repeated_habits, alternated, have_two_lengths, is_comma};

    /// The habits of a unit of this automaton.
    pub fn of_unit(automaton: u32) -> Habits
        ensures { result ≡ habits_of_unit automaton }
    {
        Habits {
            spread: Spread::Within(automaton),
            shortest: 1,
            longest: 1,
            mixed: false,
            uneven: false,
        }
    }

    /// The habits of `nothing`.
    pub fn of_nothing() -> Habits
        ensures { result ≡ idle_habits }
    {
        Habits {
            spread: Spread::Free,
            shortest: 1,
            longest: 1,
            mixed: false,
            uneven: false,
        }
    }

    /// Whether the alternatives have two lengths.
    pub fn has_two_lengths(self) -> bool
        ensures { result ≡ have_two_lengths self }
    {
        self.shortest != self.longest
    }

    /// Whether the alternatives have two lengths where the mark after them asks for one.
    fn differs_before(self, mark: Mark) -> bool
        ensures { result ≡ is_comma mark && have_two_lengths self }
    {
        match mark {
            Mark::Comma => self.has_two_lengths(),
            Mark::Bar | Mark::Plus => false,
        }
    }

    /// The habits of parts with a mark between them, where these are those of the first, and the others of all after it.
    pub fn joined(self, mark: Mark, others: Habits) -> Habits
        ensures { result ≡ joined_habits mark self others }
    {
        Habits {
            spread: self.spread.joined(others.spread),
            shortest: mark.shortest(self.shortest, others.shortest),
            longest: mark.longest(self.longest, others.longest),
            mixed: self.mixed || others.mixed,
            uneven: self.uneven || others.uneven || self.differs_before(mark),
        }
    }

    /// The habits of so many copies one after another.
    pub fn repeated(self, times: u32) -> Habits
        requires { 1 ≤ times }
        ensures { result ≡ repeated_habits times self }
    {
        Habits {
            spread: self.spread,
            shortest: cut(self.shortest.saturating_mul(times)),
            longest: cut(self.longest.saturating_mul(times)),
            mixed: self.mixed,
            uneven: self.uneven || (2 <= times && self.has_two_lengths()),
        }
    }

    /// The habits of an alternation whose parts together have these.
    pub fn alternated(self) -> Habits
        ensures { result ≡ alternated self }
    {
        Habits {
            mixed: self.mixed || self.spread.is_several(),
            ..self
        }
    }
}
