//! Why an expression is not expanded.

ghost use Rattle.std.specs.Prelude.{◌≡◌};
ghost use Rattle.hz_altern.specs.declared.fault.AlternFault.TheVariants.{NoMemory as no_memory};

/// No memory was left for the answer.
pub use std::alloc::AllocError as NoMemory;
use std::alloc::AllocFailed;
use thiserror::Error;

/// Why an expression is not expanded: the first limit that its alternatives pass, in this order.
#[derive(Clone, Copy, Debug, PartialEq, Eq, Error)]
pub enum AlternFault {
    /// There are more than `ALTERNATIVE_LIMIT`.
    #[error("too many alternatives")]
    AlternativesLimit,
    /// One is longer than `CYCLE_LIMIT`.
    #[error("an alternative of too many cycles")]
    CyclesLimit,
    /// Their cycles and pairs are more than `SIZE_LIMIT` together.
    #[error("too many cycles and pairs")]
    SizeLimit,
    /// Memory ran out.
    #[error("out of memory")]
    NoMemory,
}

impl From<NoMemory> for AlternFault {
    ghost from_gives = { λ _ fault. fault ≡ no_memory };

    fn from(_error: NoMemory) -> AlternFault {
        AlternFault::NoMemory
    }
}

impl<T: Drop> From<AllocFailed<T>> for AlternFault {
    ghost from_gives = { λ _ fault. fault ≡ no_memory };

    fn from(_error: AllocFailed<T>) -> AlternFault {
        AlternFault::NoMemory
    }
}
