//! Alternatives.

use std::alloc::{AllocError, Global};

/// A unit of an automaton that is taken in a cycle, counted from the start of the alternative.
#[derive(Clone, Copy, Debug, PartialEq, Eq)]
pub struct Pair {
    /// The number of the automaton.
    pub automaton: u8,
    /// The number of the unit in its automaton.
    pub unit: u8,
    pub cycle: u16,
}

/// One way to reserve: its pairs, and for how many cycles it runs. `expand` gives the pairs each once and ascending by
/// cycle, automaton and unit.
#[derive(Debug, PartialEq, Eq, Drop)]
pub struct Alt {
    pub pairs: Vec<Pair>,
    pub length: u32,
}

impl Alt {
    ghost use Rattle.std.specs.Prelude.{◌≡◌, IfOk};
    ghost use Rattle.hz_altern.specs.Shapes.{alternative_of};

    /// An equal alternative.
    pub(crate) fn copy(&self, alloc: Global) -> Result<Alt, AllocError>
        ensures { IfOk result (λ alt. alternative_of alt ≡ alternative_of self.now) }
    {
        let length = self.length;
        let pairs = Vec::from_slice(alloc, &self.pairs)?;
        Ok(Alt { pairs, length })
    }
}
