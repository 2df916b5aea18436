//! Why the classes of a description are not expanded.

ghost use Rattle.std.specs.Prelude.{◌≡◌};
ghost use Rattle.hz_check_reservations.specs.declared.listing.unexpanded.Unexpanded.TheVariants.{NoMemory as no_memory};

use crate::Site;
use hz_regexp::NoMemory;
use std::alloc::AllocFailed;

/// Why the classes of a description are not expanded.
#[derive(Clone, Copy, Debug)]
pub enum Unexpanded<'a> {
    /// At this reservation or class the sizes together pass 2,097,152 cycles and pairs.
    Size(Site<'a>),
    /// Memory ran out.
    NoMemory,
}

impl<'a> From<NoMemory> for Unexpanded<'a> {
    ghost from_gives = { λ _ fault. fault ≡ no_memory };

    fn from(_error: NoMemory) -> Unexpanded<'a> {
        Unexpanded::NoMemory
    }
}

impl<'a, T: Drop> From<AllocFailed<T>> for Unexpanded<'a> {
    ghost from_gives = { λ _ fault. fault ≡ no_memory };

    fn from(_error: AllocFailed<T>) -> Unexpanded<'a> {
        Unexpanded::NoMemory
    }
}
