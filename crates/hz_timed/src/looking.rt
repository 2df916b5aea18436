//! What a slot sees.

ghost use Rattle.std.specs.Prelude.{◌≡◌};
ghost use Rattle.std.specs.Option.{option_map};
ghost use Rattle.hz_rtl.specs.States.{words};
ghost use Rattle.hz_measure_model.specs.Exposed.Exposed.{ascending};
ghost use Rattle.hz_timed.specs.Shape.{place_of};
ghost use Rattle.hz_timed.specs.Writes.{number_by, last_ripe, seen_in, written_at, CanSee};

use crate::evaluating::Sight;
use crate::parts::Source;
use crate::waits::Waits;
use crate::written::Written;
use hz_rtl::State;
use hz_sched::Slot;

/// A slot, with what was written before it and the state before all.
#[derive(Clone, Copy)]
pub struct Look<'a> {
    pub start: &'a State,
    pub written: &'a Written,
    pub waits: Waits<'a>,
    pub slot: Slot,
}

/// The word of a register or a cell.
fn start_word(state: &State, what: Source) -> u64
    ensures { result ≡ words state.now (place_of what) }
{
    match what {
        Source::Reg(number) => state.registers[number as usize],
        Source::Cell(address) => state.cells.get(&address).copied().unwrap_or(0),
    }
}

/// Puts registers in ascending order, each once.
pub fn order_registers(registers: &mut Vec<u8>)
    ensures { registers.new.items ≡ ascending registers.old.items }
{
    registers.sort_unstable();
    registers.dedup();
}

/// Puts cells in ascending order, each once.
pub fn order_cells(cells: &mut Vec<u64>)
    ensures { cells.new.items ≡ ascending cells.old.items }
{
    cells.sort_unstable();
    cells.dedup();
}

impl Sight for Look<'_> {
    ghost use Rattle.hz_timed.specs.Shape.{place_of};
    ghost use Rattle.hz_timed.specs.Writes.{seen_in, CanSee};

    ghost seen = { λ look. seen_in look };

    ghost sees = { λ look. CanSee look };

    /// The word that the slot sees.
    #[tactic(auto, unfolding(crate::specs::Writes::CanSee))]
    fn word(&self, what: Source) -> u64
        requires { CanSee self.now }
        ensures { result ≡ seen_in self.now (place_of what) }
    {
        match self.written.newest(&self.waits, self.slot, what) {
            Some(number) => self.written.writes[number].word,
            None => start_word(self.start, what),
        }
    }
}

impl Look<'_> {
    /// The place of the instruction that wrote what the slot sees, if one did.
    #[tactic(auto, unfolding(crate::specs::Writes::CanSee))]
    pub fn writer(&self, what: Source) -> Option<u32>
        requires { CanSee self.now }
        ensures { result ≡ option_map (λ w. w.place) (written_at self.now.written.now.writes.items (last_ripe (number_by self.now.waits) self.now.slot self.now.written.now.writes.items (place_of what))) }
    {
        match self.written.newest(&self.waits, self.slot, what) {
            Some(number) => Some(self.written.writes[number].place),
            None => None,
        }
    }
}
