//! Units of automata.

/// A unit by the number of its automaton and its number there.
#[derive(Clone, Copy, Debug, PartialEq, Eq)]
pub struct UnitPlace {
    pub automaton: u32,
    pub unit: u32,
}
