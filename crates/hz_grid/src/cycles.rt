//! A set of cycles.
ghost use Rattle.std.specs.Prelude.{◌≡◌, ◌↔◌, ◌⊎◌, ◌+◌, ◌*◌, ◌<◌, ℕ, IsTrue};
ghost use Rattle.hz_base_model.specs.Limits.{cycle_limit};
ghost use Rattle.hz_grid.specs.Sets.{HasCycle, IsLater, IsCopied};

use crate::shifting::raise;
use crate::words;

// How many cycles there are: a cycle's number is below it.
const CYCLES: u32 = 512;

/// A set of cycles from 0 to 511, a word for 64 of them.
#[derive(Clone, Copy, PartialEq, Eq, Debug)]
pub struct Cycles {
    words: [u64; 8],
}

impl Cycles {
    /// The set with no cycle.
    pub fn none() -> Cycles
        ensures { (cycle : ℕ) → ¬ HasCycle result cycle }
    {
        Cycles { words: [0; 8] }
    }

    /// The set with that cycle too.
    pub fn with(self, cycle: u32) -> Cycles
        requires { cycle < cycle_limit }
        ensures { (other : ℕ) → HasCycle result other ↔ (HasCycle self other ⊎ (other ≡ cycle)) }
    {
        let mut words = self.words;
        words::add(&mut words, cycle as usize);
        Cycles { words }
    }

    /// Whether the cycle is in the set: none from 512 on is.
    pub fn holds(self, cycle: u32) -> bool
        ensures { IsTrue result ↔ HasCycle self cycle }
    {
        cycle < CYCLES && words::holds(&self.words, cycle as usize)
    }

    /// Whether no cycle is in the set.
    pub fn is_empty(self) -> bool
        ensures { IsTrue result ↔ ((cycle : ℕ) → ¬ HasCycle self cycle) }
    {
        words::is_empty(&self.words)
    }

    /// The cycles of both sets.
    pub fn join(self, other: Cycles) -> Cycles
        ensures { (cycle : ℕ) → HasCycle result cycle ↔ (HasCycle self cycle ⊎ HasCycle other cycle) }
    {
        let mut words = self.words;
        words::join(&mut words, &other.words);
        Cycles { words }
    }

    /// The same cycles, so many later. What would come after cycle 511 is dropped.
    pub fn later(self, cycles: u32) -> Cycles
        ensures { (cycle : ℕ) → HasCycle result cycle ↔ IsLater self cycles cycle }
    {
        if cycles < CYCLES {
            let mut words = [0; 8];
            raise(&self.words, cycles as usize, &mut words);
            Cycles { words }
        } else {
            Cycles::none()
        }
    }

    /// The cycles of so many copies of the set, each so many cycles after the one before. What would come after cycle 511
    /// is dropped.
    pub fn copies(self, times: u32, apart: u32) -> Cycles
        ensures { (cycle : ℕ) → HasCycle result cycle ↔ IsCopied self times apart cycle }
    {
        if times == 0 {
            return Cycles::none();
        }
        let mut copies = self;
        let mut made = 1;
        while made < times {
            let more = made.min(times - made);
            copies = copies.join(copies.later(more.saturating_mul(apart)));
            made += more;
        }
        copies
    }
}
