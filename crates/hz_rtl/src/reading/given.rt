//! What a state gives as it is read.

ghost use Rattle.std.specs.Prelude.{ℕ, ◌≡◌, map};
ghost use Rattle.std.specs.Ordering.{nat_cmp};
ghost use Rattle.std.specs.BTreeSet.{contains};
ghost use Rattle.hz_block_model.specs.Running.States.{reg, cell};
ghost use Rattle.hz_block_model.specs.Texts.StateForms as model;
ghost use Rattle.hz_rtl.specs.Stores.{store};

use crate::running::store::{Spot, Store};
use hz_regexp::NoMemory;
use std::alloc::Global;
use std::collections::BTreeSet;

/// The words that are given, and the sets of their registers and cells.
#[derive(Drop)]
pub struct Given {
    pub stores: Vec<Store>,
    registers: BTreeSet<u8>,
    cells: BTreeSet<u64>,
    ghost same_registers: { (number : ℕ) → contains nat_cmp registers number ≡ model.gives (map store stores.items) (reg number) },
    ghost same_cells: { (address : ℕ) → contains nat_cmp cells address ≡ model.gives (map store stores.items) (cell address) },
}

impl Given {
    ghost use Rattle.std.specs.Prelude.{[], ◌∷◌, ◌++◌, IfOk};
    ghost use Rattle.hz_rtl.specs.Stores.{place};
    ghost use Rattle.hz_rtl.specs.declared.running.store.Spot.TheVariants.{Register, Cell};

    /// None yet. It takes no memory.
    pub fn new(alloc: Global) -> Given
        ensures { result.stores.items ≡ [] }
    {
        Given {
            stores: Vec::new(alloc),
            registers: BTreeSet::new(alloc),
            cells: BTreeSet::new(alloc),
        }
    }

    /// Whether a word is given for the register or cell.
    pub fn gives(&self, spot: Spot) -> bool
        ensures { result ≡ model.gives (map store self.now.stores.items) (place spot) }
    {
        match spot {
            Spot::Register(number) => self.registers.contains(&number),
            Spot::Cell(address) => self.cells.contains(&address),
        }
    }

    /// The words that are given.
    pub fn into_stores(self) -> Vec<Store>
        ensures { result.items ≡ self.stores.items }
    {
        self.stores
    }

    /// Gives one more register.
    fn add_register(self, number: u8, word: u64) -> Result<Given, NoMemory>
        ensures { IfOk result (λ more. more.stores.items ≡ self.stores.items ++ record { spot = Register number; word = word } ∷ []) }
    {
        let Given {
            mut stores,
            mut registers,
            cells,
        } = self;
        registers.insert(number)?;
        stores.push(Store {
            spot: Spot::Register(number),
            word,
        })?;
        Ok(Given {
            stores,
            registers,
            cells,
        })
    }

    /// Gives one more cell.
    fn add_cell(self, address: u64, word: u64) -> Result<Given, NoMemory>
        ensures { IfOk result (λ more. more.stores.items ≡ self.stores.items ++ record { spot = Cell address; word = word } ∷ []) }
    {
        let Given {
            mut stores,
            registers,
            mut cells,
        } = self;
        cells.insert(address)?;
        stores.push(Store {
            spot: Spot::Cell(address),
            word,
        })?;
        Ok(Given {
            stores,
            registers,
            cells,
        })
    }

    /// Gives one more word.
    pub fn add(self, store: Store) -> Result<Given, NoMemory>
        ensures { IfOk result (λ more. more.stores.items ≡ self.stores.items ++ store ∷ []) }
    {
        match store.spot {
            Spot::Register(number) => self.add_register(number, store.word),
            Spot::Cell(address) => self.add_cell(address, store.word),
        }
    }
}
