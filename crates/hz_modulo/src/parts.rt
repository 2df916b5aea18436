//! What is answered.

/// The kernel of a loop: one interval of its turns, when all of them overlap.
#[derive(Debug, PartialEq, Eq, Drop)]
pub struct Kernel {
    /// How many cycles after a turn the next one begins.
    pub interval: u32,
    /// How many stages a turn has, with the first: in so many intervals it is issued.
    pub stages: u32,
    /// The instructions of an interval by their cycle in it, in one cycle those of the greater stage first, which is the older turn,
    /// then in the order of the schedule.
    pub slots: Vec<KernelSlot>,
    /// The first turn at whose start the machine is in the same states as at the start of another.
    pub first_edge: u32,
    /// That other turn.
    pub second_edge: u32,
}

/// An instruction of a kernel: its cycle in the interval, its stage from 0, and its place in the block, counted from 0.
#[derive(Clone, Copy, Debug, PartialEq, Eq)]
pub struct KernelSlot {
    pub offset: u32,
    pub stage: u32,
    pub place: u32,
}

/// Two starts of turns at which a machine is in the same states.
#[derive(Clone, Copy, Debug, PartialEq, Eq)]
pub struct Repeat {
    pub first: u32,
    pub second: u32,
}
