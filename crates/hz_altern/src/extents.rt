//! Extents: how many alternatives there are, and how long the longest is, with none of them made. `measure` says what an
//! extent is, `counting` gives that of an expression, and those of names stand here.

use crate::extents::measure::Extent;
use crate::fault::NoMemory;
use hz_regexp::Name;
use std::alloc::Global;
use std::collections::BTreeMap;

pub(crate) mod counting;
pub(crate) mod measure;

/// An extent for each of some names.
#[derive(Drop)]
pub struct Extents {
    names: BTreeMap<Name, Extent>,
}

impl Extents {
    ghost use Rattle.std.specs.Prelude.{◌≡◌, ℕ, List, None, OnOk, OnErr};
    ghost use Rattle.hz_altern.specs.Extents.{reported};
    ghost use Rattle.hz_altern.specs.Tables.{extent_in, Adds, IsKept};
    ghost use Rattle.std.specs.Option.{option_map};

    /// Holds no name. It takes no memory.
    pub fn new(alloc: Global) -> Extents
        ensures { (name : List ℕ) → extent_in result name ≡ None }
    {
        Extents {
            names: BTreeMap::new(alloc),
        }
    }

    /// Holds the extent for a name that is not held. `NoMemory` leaves it as it was.
    pub fn add(&mut self, name: &Name, extent: Extent) -> Result<(), NoMemory>
        requires { extent_in self.old name.now ≡ None }
        ensures added { OnOk result (Adds (extent_in self.old) (extent_in self.new) name.now (reported extent)) }
        ensures kept { OnErr result (IsKept (extent_in self.old) (extent_in self.new)) }
    {
        let name = name.copy()?;
        self.names.insert(name, extent)?;
        Ok(())
    }

    /// The extent of a name, if it is held.
    pub(crate) fn find(&self, name: &Name) -> Option<Extent>
        ensures { option_map reported result ≡ extent_in self.now name.now }
    {
        self.names.get(name).copied()
    }
}
