//! Why a block is not scheduled.

ghost use Rattle.std.specs.Prelude.{◌≡◌};
ghost use Rattle.hz_base_model.specs.Reported.{reported_in};
ghost use Rattle.hz_sched.specs.Shape.{reported_of};

use thiserror::Error;

/// Why a block is not scheduled.
#[derive(Clone, Copy, Debug, PartialEq, Eq, Error)]
pub enum SchedFault {
    /// The class of the instruction at this place, counted from 0, can't be issued even where nothing else is.
    #[error("the instruction at {place} can't be issued")]
    CannotStartAlone { place: u32 },
    /// Memory ran out.
    #[error("out of memory")]
    NoMemory,
}

impl SchedFault {
    /// The word by which the fault is reported, and the place of its instruction; None for want of memory. docs/FORMATS.md, 'Answers'.
    pub fn reported(&self) -> Option<(&'static str, u32)>
        ensures { reported_in result ≡ reported_of self.now }
    {
        match self {
            SchedFault::CannotStartAlone { place } => Some(("CannotStartAlone", *place)),
            SchedFault::NoMemory => None,
        }
    }
}
