//! Why a text is no trace.

ghost use Rattle.std.specs.Prelude.{◌≡◌};
ghost use Rattle.hz_pipeline_model.specs.Traces.Traces.{trace_word};
ghost use Rattle.hz_base_model.specs.Reported.{reported_by, reported_in};
ghost use Rattle.hz_replay.specs.Traces.{fault_reported};
ghost use Rattle.hz_replay.specs.declared.fault.TraceFault.TheVariants.{NoMemory as no_memory};

use std::alloc::{AllocError, AllocFailed};
use thiserror::Error;

/// The first line of a trace that is wrong, by its number from 1. Source: this profile, docs/FORMATS.md, 'Trace'.
#[derive(Clone, Copy, Debug, PartialEq, Eq, Error)]
pub enum TraceFault {
    /// The line is neither empty, nor a comment, nor an issue, nor an advance, nor an ask.
    #[error("line {line} is no event")]
    BadLine { line: u32 },
    /// The line issues a name that no class has.
    #[error("line {line} issues an unknown class")]
    UnknownClass { line: u32 },
    /// With this line the advances of the trace pass their limit.
    #[error("line {line} advances too far")]
    AdvanceLimit { line: u32 },
    /// The line asks for a name that no query unit has.
    #[error("line {line} asks for an unknown unit")]
    UnknownUnit { line: u32 },
    /// Memory ran out.
    #[error("out of memory")]
    NoMemory,
}

impl TraceFault {
    /// The word by which the fault is reported, and its line; None for want of memory. docs/FORMATS.md, 'Answers'.
    pub fn reported(&self) -> Option<(&'static str, u32)>
        ensures { reported_in result ≡ reported_by trace_word (fault_reported self.now) }
    {
        match self {
            TraceFault::BadLine { line } => Some(("BadLine", *line)),
            TraceFault::UnknownClass { line } => Some(("UnknownClass", *line)),
            TraceFault::AdvanceLimit { line } => Some(("AdvanceLimit", *line)),
            TraceFault::UnknownUnit { line } => Some(("UnknownUnit", *line)),
            TraceFault::NoMemory => None,
        }
    }
}

impl From<AllocError> for TraceFault {
    ghost from_gives = { λ _ fault. fault ≡ no_memory };

    fn from(_error: AllocError) -> TraceFault {
        TraceFault::NoMemory
    }
}

impl<T: Drop> From<AllocFailed<T>> for TraceFault {
    ghost from_gives = { λ _ fault. fault ≡ no_memory };

    fn from(_error: AllocFailed<T>) -> TraceFault {
        TraceFault::NoMemory
    }
}
