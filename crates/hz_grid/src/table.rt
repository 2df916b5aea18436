//! A reservation table.
ghost use Rattle.std.specs.Prelude.{◌≡◌, ◌↔◌, ◌⊎◌, ◌<◌, ℕ, IfOk};
ghost use Rattle.hz_base_model.specs.Limits.{automaton_limit, unit_limit};
ghost use Rattle.hz_grid.specs.Sets.{HasCycle};
ghost use Rattle.hz_grid.specs.Tables.{row_of, IsTaken};

use crate::cycles::Cycles;
use std::alloc::Global;
use std::marker::Model;

/// No memory was left for the answer.
pub use std::alloc::AllocError as NoMemory;

// How many units an automaton may have.
const UNITS: usize = 256;

// How many rows there are: one for each unit that each automaton may have.
const ROWS: usize = 4096;

/// In which cycles from 0 to 511 each unit of each automaton is taken. Automata are numbered below 16, their units below
/// 256.
#[derive(Drop, Debug)]
pub struct ReservationTable {
    rows: Vec<Cycles>,
}

impl Model for ReservationTable {
    ghost use Rattle.std.specs.Prelude.{◌≡◌, List, length};
    ghost use Rattle.hz_grid.specs.declared.cycles.Cycles.{Cycles};

    ghost Value = { List Cycles };

    ghost view = { λ table. table.rows.items };

    ghost invariant = { λ table. length table.rows.items ≡ 4096 };
}

impl ReservationTable {
    /// The table in which nothing is taken.
    pub fn new(alloc: Global) -> Result<ReservationTable, NoMemory>
        ensures { IfOk result (λ table. (automaton unit cycle : ℕ) → ¬ IsTaken table automaton unit cycle) }
    {
        Ok(ReservationTable {
            rows: vec![in alloc; Cycles::none(); ROWS]?,
        })
    }

    /// Takes a unit in these cycles too. It takes no memory.
    pub fn take(&mut self, automaton: u8, unit: u8, cycles: Cycles)
        requires automaton { automaton < automaton_limit }
        requires unit { unit < unit_limit }
        ensures { (other place cycle : ℕ) → IsTaken self.new other place cycle
            ↔ (IsTaken self.old other place cycle ⊎ ((other ≡ automaton) × (place ≡ unit) × HasCycle cycles cycle)) }
    {
        let row = row_of(automaton, unit);
        self.rows[row] = self.rows[row].join(cycles);
    }

    /// The cycles in which a unit is taken. It takes no memory.
    pub fn cycles_of(&self, automaton: u8, unit: u8) -> Cycles
        requires automaton { automaton < automaton_limit }
        requires unit { unit < unit_limit }
        ensures { (cycle : ℕ) → HasCycle result cycle ↔ IsTaken self.now automaton unit cycle }
    {
        self.rows[row_of(automaton, unit)]
    }
}

// The row of a unit of an automaton.
fn row_of(automaton: u8, unit: u8) -> usize
    requires automaton { automaton < automaton_limit }
    requires unit { unit < unit_limit }
    ensures place { result ≡ row_of automaton unit }
    ensures below { result < 4096 }
{
    usize::from(automaton) * UNITS + usize::from(unit)
}
