//! Why two blocks are not scheduled.

use thiserror::Error;

/// Why two blocks are not scheduled.
#[derive(Clone, Copy, Debug, PartialEq, Eq, Error)]
pub enum DuoFault {
    /// The class of the instruction at this place of this context, counted from 0 and from 1, can't be issued even where nothing
    /// else is.
    #[error("the instruction at {place} of context {context} can't be issued")]
    CannotStartAlone { context: u8, place: u32 },
    /// Memory ran out.
    #[error("out of memory")]
    NoMemory,
}
