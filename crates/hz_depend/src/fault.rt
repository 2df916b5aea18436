//! Why a block has no dependence graph.

ghost use Rattle.std.specs.Prelude.{◌≡◌};
ghost use Rattle.hz_depend.specs.declared.fault.DependFault.TheVariants.{NoMemory as no_memory};

use crate::class::ClassFault;
use hz_regexp::NoMemory;
use std::alloc::AllocFailed;
use thiserror::Error;

/// Why a block has no dependence graph.
#[derive(Clone, Copy, Debug, PartialEq, Eq, Error)]
pub enum DependFault {
    /// What is wrong with the class of the instruction at this place, counted from 0.
    #[error("the instruction at {place}: {fault}")]
    Class { place: u32, fault: ClassFault },
    /// Memory ran out.
    #[error("out of memory")]
    NoMemory,
}

impl From<NoMemory> for DependFault {
    ghost from_gives = { λ _ fault. fault ≡ no_memory };

    fn from(_error: NoMemory) -> DependFault {
        DependFault::NoMemory
    }
}

impl<T: Drop> From<AllocFailed<T>> for DependFault {
    ghost from_gives = { λ _ fault. fault ≡ no_memory };

    fn from(_error: AllocFailed<T>) -> DependFault {
        DependFault::NoMemory
    }
}
