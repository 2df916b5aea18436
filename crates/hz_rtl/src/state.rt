//! States of registers and memory.

ghost use Rattle.std.specs.Prelude.{ℕ, ◌≡◌, ◌≢◌, Some, length};
ghost use Rattle.std.specs.Ordering.{nat_cmp};
ghost use Rattle.std.specs.BTreeMap.{get, IsOrdered};
ghost use Rattle.std.proofs.Props.{props};

use crate::running::store::{Spot, Store};
use hz_regexp::NoMemory;
use std::alloc::Global;
use std::collections::BTreeMap;

/// How many registers there are.
pub const REGISTERS: usize = 256;

/// The word of each register and of each cell. Contracts see it by `words`, a function of places.
#[derive(Debug, Drop)]
pub struct State {
    /// The words of the registers, 256 of them.
    pub registers: Vec<u64>,
    /// The cells that aren't 0; an address that isn't held holds 0.
    pub cells: BTreeMap<u64, u64>,
    pub ghost count: { length registers.items ≡ 256 },
    pub ghost nonzero: { (address : ℕ) → get nat_cmp cells address ≢ Some 0 },
    pub ghost ordered: { IsOrdered nat_cmp cells } by { Prim.hlevel props },
}

impl State {
    ghost use Rattle.std.specs.Prelude.{IfOk, OnOk};
    ghost use Rattle.hz_block_model.specs.Texts.StateForms.{empty_state};
    ghost use Rattle.hz_block_model.specs.Running.States as model;
    ghost use Rattle.hz_rtl.specs.States.{words};
    ghost use Rattle.hz_rtl.specs.Stores.{place, store};

    /// The state in which all is 0.
    pub fn new(alloc: Global) -> Result<State, NoMemory>
        ensures { IfOk result (λ state. words state ≡ empty_state) }
    {
        Ok(State {
            registers: vec![in alloc; 0; REGISTERS]?,
            cells: BTreeMap::new(alloc),
        })
    }

    /// An equal state.
    pub fn copy(&self) -> Result<State, NoMemory>
        ensures { IfOk result (λ state. words state ≡ words self.now) }
    {
        Ok(State {
            registers: self.registers.clone()?,
            cells: self.cells.clone()?,
        })
    }

    /// The word of a register or a cell.
    pub fn word(&self, spot: Spot) -> u64
        ensures { result ≡ words self.now (place spot) }
    {
        match spot {
            Spot::Register(number) => self.registers[number as usize],
            Spot::Cell(address) => self.cells.get(&address).copied().unwrap_or(0),
        }
    }

    /// Stores a word in a register.
    fn put_register(self, number: u8, word: u64) -> State
        ensures { (p : model.Place) → words result p ≡ model.stored (words self) (record { place = model.reg number; word = word }) p }
    {
        let State {
            mut registers,
            cells,
        } = self;
        registers[number as usize] = word;
        State { registers, cells }
    }

    /// Stores a word in a cell.
    fn put_cell(self, address: u64, word: u64) -> Result<State, NoMemory>
        ensures { IfOk result (λ state. (p : model.Place) → words state p ≡ model.stored (words self) (record { place = model.cell address; word = word }) p) }
    {
        let State {
            registers,
            mut cells,
        } = self;
        if word == 0 {
            cells.remove(&address);
        } else {
            cells.insert(address, word)?;
        }
        Ok(State { registers, cells })
    }

    /// Stores a word in a register or a cell.
    pub fn put(self, stored: Store) -> Result<State, NoMemory>
        ensures { IfOk result (λ state. words state ≡ model.stored (words self) (store stored)) }
    {
        match stored.spot {
            Spot::Register(number) => Ok(self.put_register(number, stored.word)),
            Spot::Cell(address) => self.put_cell(address, stored.word),
        }
    }
}
