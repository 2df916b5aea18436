//! The attributes of one instruction as they are read.

ghost use Rattle.std.specs.Prelude.{ℕ, List, ◌≡◌};
ghost use Rattle.hz_block_model.specs.Texts.BlockForms as model;
ghost use Rattle.hz_rtl.specs.NameSets.{is_held};

use hz_regexp::{Name, NoMemory};
use std::alloc::Global;
use std::collections::BTreeSet;

/// Attributes with their values, and the set of their names.
#[derive(Drop)]
pub struct Attributes {
    pub given: Vec<(Name, Name)>,
    names: BTreeSet<Name>,
    ghost same: { (name : List ℕ) → is_held names name ≡ model.gives given.items name },
}

impl Attributes {
    ghost use Rattle.std.specs.Prelude.{[], ◌∷◌, ◌++◌, IfOk};

    /// None yet. It takes no memory.
    pub fn new(alloc: Global) -> Attributes
        ensures { result.given.items ≡ [] }
    {
        Attributes {
            given: Vec::new(alloc),
            names: BTreeSet::new(alloc),
        }
    }

    /// The attributes with their values.
    pub fn into_given(self) -> Vec<(Name, Name)>
        ensures { result.items ≡ self.given.items }
    {
        self.given
    }

    /// Whether an attribute of this name is given.
    pub fn gives(&self, name: &Name) -> bool
        ensures { result ≡ model.gives self.now.given.items name.now }
    {
        self.names.contains(name)
    }

    /// Gives one more attribute.
    pub fn add(self, name: Name, value: Name) -> Result<Attributes, NoMemory>
        ensures { IfOk result (λ more. more.given.items ≡ self.given.items ++ (name, value) ∷ []) }
    {
        let Attributes {
            mut given,
            mut names,
        } = self;
        names.insert(name.copy()?)?;
        given.push((name, value))?;
        Ok(Attributes { given, names })
    }
}
