//! How long an instruction waits for what another wrote.

ghost use Rattle.std.specs.Prelude.{◌≡◌, ◌<◌, ◌+◌, Some, nat_le, length, map, slice_get, slice_index};
ghost use Rattle.hz_rtl.specs.Shape.{instruction, instructions};
ghost use Rattle.hz_timed.specs.Writes.{number_by, place_count, CanWait};

use crate::write::Write;
use hz_checked::Checked;
use hz_depend::{Graph, Numbers};
use hz_rtl::{Block, Insn};
use hz_sched::Slot;

/// A block, the classes of its instructions in a description, and the numbers of the description's bypasses.
#[derive(Clone, Copy)]
pub struct Waits<'a> {
    pub checked: &'a Checked,
    pub block: &'a Block,
    pub graph: &'a Graph,
    pub numbers: &'a Numbers,
}

impl Waits<'_> {
    /// The class of the instruction at a place.
    fn class(&self, place: u32) -> u32
        requires classes { CanWait self.now }
        requires place { place < place_count self.now }
        ensures class { result ≡ slice_index (map (λ i. i.class) self.now.graph.now.insns.items) place }
        ensures within { result < length self.now.checked.now.classes.items }
    {
        let insn = &self.graph.insns[place as usize];
        insn.class
    }

    /// The instruction at a place.
    pub fn insn(&self, place: u32) -> &Insn
        requires { place < place_count self.now }
        ensures { slice_get (instructions self.now.block.now) place ≡ Some (instruction result.now) }
    {
        &self.block.insns[place as usize]
    }

    /// The cycles that the second instruction waits for what the first wrote.
    fn between(&self, first: u32, second: u32) -> u32
        requires classes { CanWait self.now }
        requires first { first < place_count self.now }
        requires second { second < place_count self.now }
        ensures { result ≡ number_by self.now first second }
    {
        self.numbers.ripe(
            self.checked,
            self.insn(first),
            self.class(first),
            self.insn(second),
            self.class(second),
        )
    }

    /// Whether a write is ripe for a slot.
    pub fn is_ripe(&self, slot: Slot, write: &Write) -> bool
        requires classes { CanWait self.now }
        requires write { write.now.place < place_count self.now }
        requires slot { slot.place < place_count self.now }
        ensures { result ≡ nat_le (write.now.cycle + number_by self.now write.now.place slot.place) slot.cycle }
    {
        let ready = write.cycle as u64 + self.between(write.place, slot.place) as u64;
        ready <= slot.cycle as u64
    }
}
