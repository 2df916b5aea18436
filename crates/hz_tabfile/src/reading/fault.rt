//! Why a text stands for no machine.

ghost use Rattle.std.specs.Prelude.{◌≡◌};
ghost use Rattle.hz_base_model.specs.Reported.{reported_by, reported_in};
ghost use Rattle.hz_tabfile.specs.Given.{fault_of};
ghost use Rattle.hz_tabtext_model.specs.Judging.{tables_word};
ghost use Rattle.hz_tabfile.specs.declared.reading.fault.TabFault.TheVariants.{NoMemory as no_memory};

use std::alloc::{AllocError, AllocFailed};
use thiserror::Error;

/// The first line of a tables text that is wrong, by its number from 1. Source: this profile, docs/FORMATS.md, 'Tables'.
#[derive(Clone, Copy, Debug, PartialEq, Eq, Error)]
pub enum TabFault {
    /// The first line is another than `hazard-tables 1` and `hazard-tables 2`.
    #[error("line {line} is no header")]
    BadHeader { line: u32 },
    /// The line is no line of its place: another word, another number of fields, an empty field, no name, or one that came
    /// before.
    #[error("line {line} is out of place")]
    BadLine { line: u32 },
    /// A field is no number.
    #[error("line {line} has a field that is no number")]
    BadNumber { line: u32 },
    /// A number is out of its range.
    #[error("line {line} has a number out of range")]
    OutOfRange { line: u32 },
    /// The text ends before this line does.
    #[error("line {line} is not ended")]
    Truncated { line: u32 },
    /// Something comes after the end.
    #[error("line {line} comes after the end")]
    Trailing { line: u32 },
    /// Memory ran out.
    #[error("out of memory")]
    NoMemory,
}

impl TabFault {
    /// The word by which the fault is reported, and its line; None for want of memory. docs/FORMATS.md, 'Answers'.
    pub fn reported(&self) -> Option<(&'static str, u32)>
        ensures { reported_in result ≡ reported_by tables_word (fault_of self.now) }
    {
        match self {
            TabFault::BadHeader { line } => Some(("BadHeader", *line)),
            TabFault::BadLine { line } => Some(("BadLine", *line)),
            TabFault::BadNumber { line } => Some(("BadNumber", *line)),
            TabFault::OutOfRange { line } => Some(("OutOfRange", *line)),
            TabFault::Truncated { line } => Some(("Truncated", *line)),
            TabFault::Trailing { line } => Some(("Trailing", *line)),
            TabFault::NoMemory => None,
        }
    }
}

impl From<AllocError> for TabFault {
    ghost from_gives = { λ _ fault. fault ≡ no_memory };

    fn from(_error: AllocError) -> TabFault {
        TabFault::NoMemory
    }
}

impl<T: Drop> From<AllocFailed<T>> for TabFault {
    ghost from_gives = { λ _ fault. fault ≡ no_memory };

    fn from(_error: AllocFailed<T>) -> TabFault {
        TabFault::NoMemory
    }
}
