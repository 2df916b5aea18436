//! What a schedule of two blocks is made of.

/// An issue of one of two contexts, 1 and 2: the place of the instruction in the block of its context, counted from 0, and the cycle.
#[derive(Clone, Copy, Debug, PartialEq, Eq)]
pub struct DuoSlot {
    pub context: u8,
    pub place: u32,
    pub cycle: u32,
}
