//! The cycles of a schedule by places.

ghost use Rattle.std.specs.Prelude.{◌≡◌, ◌<◌, ◌^◌, length, map, All, IfOk, slice_index};
ghost use Rattle.std.specs.List.{Contains};
ghost use Rattle.hz_block_model.specs.Scheduling.Schedules as model;
ghost use Rattle.hz_sched.specs.Shape.{slots_of};

use hz_regexp::NoMemory;
use hz_sched::Slot;
use std::alloc::Global;

/// The cycle at which the instruction at each place is issued, where there are so many.
pub fn cycles_of(alloc: Global, slots: &[Slot], size: usize) -> Result<Vec<u32>, NoMemory>
    requires places { All (λ x. x.place < size) slots.now }
    requires small { All (λ x. x.cycle < 2 ^ 30) slots.now }
    requires once { (a b : model.Slot) → Contains (slots_of slots.now) a → Contains (slots_of slots.now) b → a.place ≡ b.place → a.cycle ≡ b.cycle }
    ensures size { IfOk result (λ cycles. length cycles.items ≡ size) }
    ensures small { IfOk result (λ cycles. All (λ c. c < 2 ^ 30) cycles.items) }
    ensures reported { IfOk result (λ cycles. (x : model.Slot) → Contains (slots_of slots.now) x → slice_index cycles.items x.place ≡ x.cycle) }
{
    let mut cycles = vec![in alloc; 0; size]?;
    for slot in slots {
        cycles[slot.place as usize] = slot.cycle;
    }
    Ok(cycles)
}
