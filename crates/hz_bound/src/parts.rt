//! What a lower bound is made of.

/// A lower bound on the last cycle of every legal schedule of a block, with what shows it.
#[derive(Debug, PartialEq, Eq, Drop)]
pub struct Bound {
    /// For how many cycles the dependences ask: the greatest tail of an instruction.
    pub path: u32,
    /// The places of the instructions along which they do, from the first with the greatest tail on.
    pub chain: Vec<u32>,
    /// The unit that asks for most cycles; none where no instruction needs a unit in all its alternatives.
    pub load: Option<Load>,
    /// The greater of `path` and the value of the load, in cycles.
    pub value: u32,
}

/// A unit that instructions can't do without.
#[derive(Clone, Copy, Debug, PartialEq, Eq)]
pub struct Load {
    pub automaton: u32,
    /// Its number in its automaton.
    pub unit: u32,
    /// For how many cycles these instructions take it at least.
    pub count: u32,
    /// How far apart the cycles are in which one of them may take it, counted from its issue.
    pub span: u32,
    /// The count less 1 and less the span.
    pub value: u32,
}
