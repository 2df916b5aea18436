//! Tables by names.

use hz_regexp::{Name, NoMemory};
use std::alloc::Global;
use std::collections::BTreeMap;

/// Something for each of some names.
#[derive(Drop)]
pub(crate) struct ByName<'a, V> {
    names: BTreeMap<&'a Name, V>,
}

impl<'a, V: Drop> ByName<'a, V> {
    ghost use Rattle.std.specs.Prelude.{◌≡◌, ℕ, List, Some, None, OnOk};
    ghost use Rattle.std.specs.Map.{update};
    ghost use Rattle.std.specs.Option.{option_copied};
    ghost use Rattle.std.specs.Str.{bytes_eq};
    ghost use Rattle.hz_check.specs.Names.Held.{held, is_held};

    /// Holds nothing. It takes no memory.
    pub fn new(alloc: Global) -> ByName<'a, V>
        ensures { (name : List ℕ) → held result name ≡ None }
    {
        ByName {
            names: BTreeMap::new(alloc),
        }
    }

    /// What is held for a name.
    pub fn find(&self, name: &'a Name) -> Option<&V>
        ensures { option_copied result ≡ held self.now name.now }
    {
        self.names.get(&name)
    }

    /// Whether something is held for a name.
    pub fn holds(&self, name: &'a Name) -> bool
        ensures { result ≡ is_held self.now name.now }
    {
        self.names.contains_key(&name)
    }

    /// Holds this for the name, in the place of what was held.
    pub fn put(&mut self, name: &'a Name, value: V) -> Result<(), NoMemory>
        ensures { OnOk result ((other : List ℕ) → held self.new other ≡ update bytes_eq (held self.old) name.now (Some value) other) }
    {
        self.names.insert(name, value)?;
        Ok(())
    }
}
