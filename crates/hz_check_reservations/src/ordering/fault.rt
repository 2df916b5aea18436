//! Why a description has no counting order.

ghost use Rattle.std.specs.Prelude.{◌≡◌};
ghost use Rattle.hz_check_reservations.specs.declared.ordering.fault.OrderFault.TheVariants.{NoMemory as no_memory};

use hz_regexp::NoMemory;

/// Why a description has no counting order.
#[derive(Clone, Copy, Debug, PartialEq, Eq)]
pub enum OrderFault {
    /// The reservation of this place is the first one of the file that reaches itself.
    Circular(usize),
    /// Memory ran out.
    NoMemory,
}

impl From<NoMemory> for OrderFault {
    ghost from_gives = { λ _ fault. fault ≡ no_memory };

    fn from(_error: NoMemory) -> OrderFault {
        OrderFault::NoMemory
    }
}
