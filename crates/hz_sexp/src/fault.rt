//! What can be wrong with a text of forms.

ghost use Rattle.std.specs.Prelude.{◌≡◌};
ghost use Rattle.hz_base_model.specs.Forms.Forms.{form_word};
ghost use Rattle.hz_base_model.specs.Reported.{reported_by, reported_in};
ghost use Rattle.hz_sexp.specs.Faults.{fault_of};
ghost use Rattle.hz_sexp.specs.declared.fault.SexpFault.TheVariants.{NoMemory as no_memory};

use std::alloc::{AllocError, AllocFailed};
use thiserror::Error;

/// What is wrong with a text, and the line of it, counted from 1.
#[derive(Debug, Drop, Error)]
pub enum SexpFault {
    /// The text ends in a string, a comment, a list or a vector: the line where the innermost begins.
    #[error("line {line}: not closed")]
    Unclosed { line: u32 },
    /// A closing bracket that closes nothing, or closes the other kind.
    #[error("line {line}: a closing bracket that closes nothing")]
    Stray { line: u32 },
    /// A backslash in a string before another byte than a quote, a backslash or a line feed.
    #[error("line {line}: a backslash before a wrong byte")]
    BadEscape { line: u32 },
    /// An open bracket at the depth of 65.
    #[error("line {line}: nested too deep")]
    TooDeep { line: u32 },
    /// A byte that is not allowed at its place.
    #[error("line {line}: a byte that is not allowed")]
    BadByte { line: u32 },
    /// A number outside -2^63 to 2^64 - 1.
    #[error("line {line}: the number is too large")]
    NumberTooLarge { line: u32 },
    /// Memory ran out.
    #[error("out of memory")]
    NoMemory,
}

impl SexpFault {
    /// The word by which the fault is reported, and its line; None for want of memory. docs/FORMATS.md, 'Answers'.
    pub fn reported(&self) -> Option<(&'static str, u32)>
        ensures { reported_in result ≡ reported_by form_word (fault_of self.now) }
    {
        match self {
            SexpFault::Unclosed { line } => Some(("Unclosed", *line)),
            SexpFault::Stray { line } => Some(("Stray", *line)),
            SexpFault::BadEscape { line } => Some(("BadEscape", *line)),
            SexpFault::TooDeep { line } => Some(("TooDeep", *line)),
            SexpFault::BadByte { line } => Some(("BadByte", *line)),
            SexpFault::NumberTooLarge { line } => Some(("NumberTooLarge", *line)),
            SexpFault::NoMemory => None,
        }
    }
}

impl From<AllocError> for SexpFault {
    ghost from_gives = { λ _ e. e ≡ no_memory };

    fn from(_error: AllocError) -> SexpFault {
        SexpFault::NoMemory
    }
}

impl<T: Drop> From<AllocFailed<T>> for SexpFault {
    ghost from_gives = { λ _ e. e ≡ no_memory };

    fn from(_error: AllocFailed<T>) -> SexpFault {
        SexpFault::NoMemory
    }
}
