//! What an exposed pipeline makes of a block.

use hz_rtl::State;

/// What is read: a register or a cell, by its number or its address.
#[derive(Clone, Copy, Debug, PartialEq, Eq)]
pub enum Source {
    Reg(u8),
    Cell(u64),
}

/// A read: the slot by its place in the schedule, counted from 0, the register or cell, and the place in the block of the instruction
/// that wrote what is seen, None where that is of the state before all.
#[derive(Clone, Copy, Debug, PartialEq, Eq)]
pub struct ReadNote {
    pub slot: u32,
    pub what: Source,
    pub from: Option<u32>,
}

/// The state that the slots of a schedule leave, and their reads: slot by slot, for each its registers in ascending order and then its
/// cells in ascending order, each once.
#[derive(Debug, Drop)]
pub struct Timed {
    pub state: State,
    pub reads: Vec<ReadNote>,
}
