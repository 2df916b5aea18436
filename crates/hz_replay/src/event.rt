//! Events of a trace.

/// What an event is: an issue of the class of this number, so many cycle advances, or an ask of a unit.
#[derive(Clone, Copy, Debug, PartialEq, Eq)]
pub enum What {
    /// An issue of the class of this number.
    Issue(u32),
    /// So many cycle advances.
    Advance(u32),
    /// Whether a unit is reserved in the present cycle: the unit of this number among those that are asked for in a part.
    Ask { part: u32, ask: u32 },
}

/// An event with its line in the trace, from 1.
#[derive(Clone, Copy, Debug, PartialEq, Eq)]
pub struct Event {
    pub line: u32,
    pub what: What,
}
