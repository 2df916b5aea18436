//! The head of an automaton.

use hz_regexp::Name;

/// What the first line of an automaton says.
#[derive(Drop)]
pub struct Head {
    pub name: Name,
    /// How many columns the classes have.
    pub columns: u32,
    pub states: u32,
}
