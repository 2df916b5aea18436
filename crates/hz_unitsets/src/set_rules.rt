//! The set statements as they are said: units and patterns by number.

/// The five set statements. GCC Internals, "Specifying processor pipeline description".
#[derive(Clone, Copy, PartialEq, Eq, Hash, Debug)]
pub enum SetKind {
    /// In no cycle a unit stands together with a pattern.
    Exclusion,
    /// An added unit wants some pattern in what stood there.
    Presence,
    /// An added unit wants some pattern in the result.
    FinalPresence,
    /// An added unit wants no pattern in what stood there.
    Absence,
    /// An added unit wants no pattern in the result.
    FinalAbsence,
}

/// One set statement over the units of an automaton, by their numbers, which are below `UNITS`. A pattern is one unit or
/// several. Of an exclusion each unit of the second string is a pattern by itself.
#[derive(Drop, Debug)]
pub struct SetRule {
    /// Which of the five it is.
    pub kind: SetKind,
    /// The units of its first string.
    pub units: Vec<u8>,
    /// The patterns of its second string.
    pub patterns: Vec<Vec<u8>>,
}
