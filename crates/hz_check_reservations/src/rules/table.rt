//! The habits of names.

use crate::rules::habits::Habits;
use hz_regexp::{Name, NoMemory};
use std::alloc::Global;
use std::collections::BTreeMap;

/// The habits of some names: of the units and reservations that they stand for.
#[derive(Drop)]
pub struct Table {
    names: BTreeMap<Name, Habits>,
}

impl Table {
    ghost use Rattle.std.specs.Prelude.{◌≡◌, ℕ, List, None, OnOk};
    ghost use Rattle.hz_altern.specs.Tables.{Adds};
    ghost use Rattle.hz_check_reservations.specs.HabitTables.{habits_in};

    /// Holds no name. It takes no memory.
    pub fn new(alloc: Global) -> Table
        ensures { (name : List ℕ) → habits_in result name ≡ None }
    {
        Table {
            names: BTreeMap::new(alloc),
        }
    }

    /// Keeps the habits of a name of which none are kept. `NoMemory` where there was none.
    pub fn add(&mut self, name: &Name, habits: Habits) -> Result<(), NoMemory>
        requires { habits_in self.old name.now ≡ None }
        ensures { OnOk result (Adds (habits_in self.old) (habits_in self.new) name.now habits) }
    {
        let name = name.copy()?;
        self.names.insert(name, habits)?;
        Ok(())
    }

    /// The habits of a name, if they are kept.
    pub fn find(&self, name: &Name) -> Option<Habits>
        ensures { result ≡ habits_in self.now name.now }
    {
        self.names.get(name).copied()
    }
}
