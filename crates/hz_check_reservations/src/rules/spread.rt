//! Of how many automata units are.

/// Of how many automata some units are.
#[derive(Clone, Copy, Debug, PartialEq, Eq)]
pub enum Spread {
    /// There is no unit.
    Free,
    /// All are of the automaton of this number.
    Within(u32),
    /// Some two are of different automata.
    Several,
}

impl Spread {
    ghost use Rattle.std.specs.Prelude.{◌≡◌};
    ghost use Rattle.hz_check_reservations.specs.Spreads.{are_several, joined_spread};

    /// Of how many automata these units and those are together.
    pub fn joined(self, other: Spread) -> Spread
        ensures { result ≡ joined_spread self other }
    {
        match (self, other) {
            (Spread::Free, _) => other,
            (_, Spread::Free) => self,
            (Spread::Within(one), Spread::Within(another)) if one == another => self,
            _ => Spread::Several,
        }
    }

    /// Whether some two units are of different automata.
    pub fn is_several(self) -> bool
        ensures { result ≡ are_several self }
    {
        match self {
            Spread::Several => true,
            _ => false,
        }
    }
}
