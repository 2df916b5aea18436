//! What is wrong with a line.

ghost use Rattle.std.specs.Prelude.{◌≡◌};
ghost use Rattle.hz_tabfile.specs.declared.reading.wrong.Wrong.TheVariants.{NoMemory as no_memory};

use super::fault::TabFault;
use std::alloc::{AllocError, AllocFailed};

/// What is wrong with a line, whichever number it has.
#[derive(Clone, Copy, Debug, PartialEq, Eq)]
pub enum Wrong {
    /// It is no line of its place.
    BadLine,
    /// A field is no number.
    BadNumber,
    /// A number is out of its range.
    OutOfRange,
    /// Memory ran out.
    NoMemory,
}

impl From<AllocError> for Wrong {
    ghost from_gives = { λ _ wrong. wrong ≡ no_memory };

    fn from(_error: AllocError) -> Wrong {
        Wrong::NoMemory
    }
}

impl<T: Drop> From<AllocFailed<T>> for Wrong {
    ghost from_gives = { λ _ wrong. wrong ≡ no_memory };

    fn from(_error: AllocFailed<T>) -> Wrong {
        Wrong::NoMemory
    }
}

impl Wrong {
    ghost use Rattle.hz_tabfile.specs.Given.{fault_at};

    /// The fault of a line of this number.
    pub fn at(self, line: u32) -> TabFault
        ensures { result ≡ fault_at line self }
    {
        match self {
            Wrong::BadLine => TabFault::BadLine { line },
            Wrong::BadNumber => TabFault::BadNumber { line },
            Wrong::OutOfRange => TabFault::OutOfRange { line },
            Wrong::NoMemory => TabFault::NoMemory,
        }
    }
}
