//! What a schedule is made of.

ghost use Rattle.std.specs.Prelude.{◌≡◌};
ghost use Rattle.hz_block_model.specs.Scheduling.Schedules.{present};
ghost use Rattle.hz_sched.specs.Shape.{slots_of};

/// A schedule of a block.
#[derive(Debug, Drop)]
pub struct Schedule {
    /// The issues, in their order.
    pub slots: Vec<Slot>,
}

impl Schedule {
    /// The cycle of the last issue, 0 if there is none.
    pub fn last_cycle(&self) -> u32
        ensures { result ≡ present 0 (slots_of self.now.slots.items) }
    {
        match self.slots.last() {
            Some(slot) => slot.cycle,
            None => 0,
        }
    }
}

/// An issue: the place of the instruction in the block, counted from 0, and the cycle.
#[derive(Clone, Copy, Debug, PartialEq, Eq)]
pub struct Slot {
    pub place: u32,
    pub cycle: u32,
}
