//! What was written.

use crate::parts::Source;

/// A word that a slot wrote: the place of its instruction, its cycle, where, and the number of the write of the same register or
/// cell before it.
#[derive(Clone, Copy)]
pub struct Write {
    pub place: u32,
    pub cycle: u32,
    pub what: Source,
    pub word: u64,
    pub before: Option<usize>,
}
