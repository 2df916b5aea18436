//! All that was written, and by register and cell which write was the last.

ghost use Rattle.std.specs.Prelude.{◌≡◌, ◌<◌, ℕ, Some, if◌then◌else◌, length, map, IfOk, IfSome, OnOk, All, ◌++◌, ◌∷◌, []};
ghost use Rattle.std.specs.Ordering.{nat_cmp};
ghost use Rattle.std.specs.BTreeMap.{IsOrdered};
ghost use Rattle.hz_block_model.specs.Running.States as model;
ghost use Rattle.hz_block_model.specs.Running.States.{same_place};
ghost use Rattle.hz_timed.specs.Shape.{place_of};
ghost use Rattle.hz_timed.specs.Writes.{number_by, place_count, CanWait, latest, last_ripe, notes_in, held, IsIndexed};

use crate::parts::Source;
use crate::waits::Waits;
use crate::write::Write;
use hz_regexp::NoMemory;
use hz_sched::Slot;
use std::alloc::Global;
use std::collections::BTreeMap;

/// How many registers there are.
const REGISTERS: usize = 256;

/// The writes so far, and for each register and cell the number of the last one.
#[derive(Drop)]
pub struct Written {
    pub writes: Vec<Write>,
    pub registers: Vec<Option<usize>>,
    pub cells: BTreeMap<u64, usize>,
}

impl Written {
    /// No write.
    pub fn new(alloc: Global) -> Result<Written, NoMemory>
        ensures indexed { IfOk result (λ made. IsIndexed made) }
        ensures none { IfOk result (λ made. made.writes.items ≡ []) }
    {
        Ok(Written {
            writes: Vec::new(alloc),
            registers: vec![in alloc; None; REGISTERS]?,
            cells: BTreeMap::new(alloc),
        })
    }

    /// The number of the last write of a register or a cell.
    fn latest(&self, what: Source) -> Option<usize>
        requires { IsIndexed self.now }
        ensures { result ≡ latest self.now.writes.items (place_of what) }
    {
        match what {
            Source::Reg(number) => self.registers[number as usize],
            Source::Cell(address) => self.cells.get(&address).copied(),
        }
    }

    /// The number of the newest write of a register or a cell that is ripe for a slot.
    pub fn newest(&self, waits: &Waits<'_>, slot: Slot, what: Source) -> Option<usize>
        requires classes { CanWait waits.now }
        requires indexed { IsIndexed self.now }
        requires places { All (λ w. w.place < place_count waits.now) self.now.writes.items }
        requires slot { slot.place < place_count waits.now }
        ensures within { IfSome result (λ number. number < length self.now.writes.items) }
        ensures newest { result ≡ last_ripe (number_by waits.now) slot self.now.writes.items (place_of what) }
    {
        let mut at = self.latest(what);
        for _turn in 0..self.writes.len() {
            match at {
                None => return None,
                Some(number) => {
                    let write = self.writes[number];
                    if waits.is_ripe(slot, &write) {
                        return Some(number);
                    }
                    at = write.before;
                }
            }
        }
        None
    }

    /// Holds a number for a register or a cell.
    fn hold(&mut self, what: Source, number: usize) -> Result<(), NoMemory>
        requires size { length self.old.registers.items ≡ 256 }
        requires ordered { IsOrdered nat_cmp self.old.cells }
        ensures writes { OnOk result (self.new.writes.items ≡ self.old.writes.items) }
        ensures held { OnOk result ((p : model.Place) → held self.new p ≡ (if same_place (place_of what) p then Some number else held self.old p)) }
        ensures size { OnOk result (length self.new.registers.items ≡ 256) }
        ensures ordered { OnOk result (IsOrdered nat_cmp self.new.cells) }
    {
        match what {
            Source::Reg(register) => self.registers[register as usize] = Some(number),
            Source::Cell(address) => {
                self.cells.insert(address, number)?;
            }
        }
        Ok(())
    }

    /// Notes that a slot wrote a word.
    pub fn note(&mut self, slot: Slot, what: Source, word: u64) -> Result<(), NoMemory>
        requires { IsIndexed self.old }
        ensures indexed { OnOk result (IsIndexed self.new) }
        ensures noted { OnOk result (notes_in self.new ≡ notes_in self.old ++ record { place = slot.place; cycle = slot.cycle; at = place_of what; word = word } ∷ []) }
    {
        let before = self.latest(what);
        let number = self.writes.len();
        self.hold(what, number)?;
        self.writes.push(Write {
            place: slot.place,
            cycle: slot.cycle,
            what,
            word,
            before,
        })?;
        Ok(())
    }
}
