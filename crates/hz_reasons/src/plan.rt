//! A pipeline as it is issued into: the set statements and the alternatives, automaton by automaton.

use hz_grid::Usage;
use hz_unitsets::{Rules, SetKind};

/// A unit of an automaton in a cycle, which is counted from the issue or from the present cycle.
#[derive(Clone, Copy, Debug, PartialEq, Eq)]
pub struct Place {
    /// The number of the automaton.
    pub automaton: u8,
    /// The number of the unit in its automaton.
    pub unit: u8,
    pub cycle: u16,
}

/// A unit of an automaton.
#[derive(Clone, Copy, Debug, PartialEq, Eq)]
pub struct AutomatonUnit {
    /// The number of the automaton.
    pub automaton: u8,
    /// The number of the unit in its automaton.
    pub unit: u8,
}

/// A set statement as it stands in the file: which of the five it is, the units of its first string, and the patterns of its second.
/// Of an exclusion each unit of the second string is a pattern by itself.
#[derive(Drop)]
pub struct SetStatement {
    pub kind: SetKind,
    pub units: Vec<AutomatonUnit>,
    pub patterns: Vec<Vec<AutomatonUnit>>,
}

/// An alternative of a class: for each automaton what it takes there, and all its pairs, ascending by cycle, automaton and unit.
#[derive(Drop)]
pub struct Choice {
    pub parts: Vec<Usage>,
    pub pairs: Vec<Place>,
}

/// A pipeline: its set statements in the order of the file, and for each automaton those on its units; for each class its alternatives
/// in their order.
#[derive(Drop)]
pub struct Plan {
    pub sets: Vec<SetStatement>,
    pub rules: Vec<Rules>,
    pub classes: Vec<Vec<Choice>>,
    /// Whether an issue may take any alternative that fits, as under `ndfa`, and not only the first.
    pub any_fit: bool,
}
