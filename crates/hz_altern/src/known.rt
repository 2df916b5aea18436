//! Alternatives of names.

ghost use Rattle.std.specs.Prelude.{◌≡◌};
ghost use Rattle.hz_altern.specs.Shapes.{alternatives};
ghost use Rattle.hz_altern.specs.Extents.{reported};
ghost use Rattle.hz_description_model.specs.Reservations.AlternativeLists.{AreSound, extent_of};

use crate::alternative::{Alt, Pair};
use crate::extents::measure::Extent;
use crate::fault::NoMemory;
use hz_regexp::Name;
use std::alloc::Global;
use std::collections::BTreeMap;

/// The alternatives of a name, with their extent.
#[derive(Drop)]
pub struct Entry {
    pub alts: Vec<Alt>,
    pub extent: Extent,
    ghost sound: { AreSound (alternatives alts.items) },
    ghost reported: { reported extent ≡ extent_of (alternatives alts.items) },
}

/// For each of some names the alternatives of the unit or reservation that it stands for.
#[derive(Drop)]
pub struct Known {
    alloc: Global,
    names: BTreeMap<Name, Entry>,
}

impl Known {
    ghost use Rattle.std.specs.Prelude.{◌≡◌, ◌<◌, ℕ, List, [], ◌∷◌, None, OnOk, OnErr};
    ghost use Rattle.hz_altern.specs.Shapes.{alternatives};
    ghost use Rattle.hz_altern.specs.Tables.{alternatives_in, Adds, IsKept};
    ghost use Rattle.hz_description_model.specs.Reservations.Alternatives.{taking};
    ghost use Rattle.hz_description_model.specs.Reservations.AlternativeLists.{AreSound};
    ghost use Rattle.hz_base_model.specs.Limits.{automaton_limit, unit_limit};
    ghost use Rattle.std.specs.Option.{option_map, option_copied};

    /// Knows no name. It takes no memory.
    pub fn new(alloc: Global) -> Known
        ensures { (name : List ℕ) → alternatives_in result name ≡ None }
    {
        Known {
            alloc,
            names: BTreeMap::new(alloc),
        }
    }

    /// Makes a name known that is not known: it stands for a unit of an automaton, which is taken for one cycle. The
    /// automaton and the unit are below their limits. `NoMemory` leaves what is known as it was.
    pub fn add_unit(&mut self, name: &Name, automaton: u8, unit: u8) -> Result<(), NoMemory>
        requires new { alternatives_in self.old name.now ≡ None }
        requires automaton { automaton < automaton_limit }
        requires unit { unit < unit_limit }
        ensures added { OnOk result (Adds (alternatives_in self.old) (alternatives_in self.new) name.now (taking (record { automaton = automaton; unit = unit }) ∷ [])) }
        ensures kept { OnErr result (IsKept (alternatives_in self.old) (alternatives_in self.new)) }
    {
        let alloc = self.alloc;
        let cycle = 0;
        let pairs = vec![in alloc;
            Pair {
                automaton,
                unit,
                cycle
            },
        ]?;
        let alts = vec![in alloc; Alt { pairs, length: 1 }]?;
        self.add_reservation(name, alts)
    }

    /// Makes a name known that is not known: it stands for a reservation with these alternatives, which are sound: at
    /// least one, each of at least one cycle, their number and cycles within their limits, its pairs ascending, within its
    /// cycles, and of units and automata below their limits. `NoMemory` leaves what is known as it was.
    pub fn add_reservation(&mut self, name: &Name, alts: Vec<Alt>) -> Result<(), NoMemory>
        requires new { alternatives_in self.old name.now ≡ None }
        requires sound { AreSound (alternatives alts.items) }
        ensures added { OnOk result (Adds (alternatives_in self.old) (alternatives_in self.new) name.now (alternatives alts.items)) }
        ensures kept { OnErr result (IsKept (alternatives_in self.old) (alternatives_in self.new)) }
    {
        let name = name.copy()?;
        let extent = extent_of(&alts);
        self.names.insert(name, Entry { alts, extent })?;
        Ok(())
    }

    /// What is known of a name.
    pub(crate) fn find(&self, name: &Name) -> Option<&Entry>
        ensures { option_map (λ entry. alternatives entry.alts.items) (option_copied result) ≡ alternatives_in self.now name.now }
    {
        self.names.get(name)
    }
}

/// How many alternatives these are, and how long the longest is.
fn extent_of(alts: &[Alt]) -> Extent
    requires { AreSound (alternatives alts.now) }
    ensures { reported result ≡ extent_of (alternatives alts.now) }
{
    let mut longest = 0;
    for alt in alts {
        longest = alt.length.max(longest);
    }
    Extent {
        count: alts.len() as u32,
        longest,
    }
}
