//! What can go wrong at files and sinks.
ghost use Rattle.std.specs.Prelude.{◌≡◌};
ghost use Rattle.hz_io.specs.declared.faults.SlurpFault.TheVariants as fault;

pub use std::alloc::AllocError as NoMemory;
use thiserror::Error;

/// A call on a file or a sink failed. The object's count of faults rose with it.
#[derive(Clone, Copy, Debug, PartialEq, Eq, Error)]
#[error("the file or sink failed")]
pub struct Failed;

/// Why a file wasn't read whole.
#[derive(Clone, Copy, Debug, PartialEq, Eq, Error)]
pub enum SlurpFault {
    /// It couldn't be opened or read.
    #[error("the file could not be read")]
    Failed,
    /// It has more bytes than are allowed; `read` of them were read.
    #[error("the file has more bytes than are allowed: {read} were read")]
    Long { read: u64 },
    /// There was no memory for its bytes.
    #[error("no memory for the file's bytes")]
    NoMemory,
}

impl From<Failed> for SlurpFault {
    ghost from_gives = { λ _ given. given ≡ fault.Failed };

    fn from(_failed: Failed) -> SlurpFault {
        SlurpFault::Failed
    }
}

impl From<NoMemory> for SlurpFault {
    ghost from_gives = { λ _ given. given ≡ fault.NoMemory };

    fn from(_refused: NoMemory) -> SlurpFault {
        SlurpFault::NoMemory
    }
}
