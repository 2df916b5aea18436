//! The slots of a kernel.

ghost use Rattle.std.specs.Prelude.{◌≡◌, ◌<◌, ◌≤◌, ◌^◌, ℕ, map, All, IfOk};
ghost use Rattle.hz_block_model.specs.Scheduling.Schedules.{present};
ghost use Rattle.hz_measure_model.specs.Kernels.Kernels as model;
ghost use Rattle.hz_sched.specs.Shape.{slot_of, slots_of};
ghost use Rattle.hz_modulo.specs.Walking.{kernel_slot_of};
ghost use Rattle.hz_modulo.specs.Ranks.{rank_of};

use crate::parts::KernelSlot;
use hz_regexp::NoMemory;
use hz_sched::Slot;
use std::alloc::Global;

/// What a slot of the schedule is in the kernel.
fn kernel_slot(slot: Slot, interval: u32) -> KernelSlot
    requires { 0 < interval }
    ensures { kernel_slot_of result ≡ model.kernel_of interval (slot_of slot) }
{
    KernelSlot {
        offset: slot.cycle % interval,
        stage: slot.cycle / interval,
        place: slot.place,
    }
}

/// The same of all slots, in their order.
fn all_slots(alloc: Global, slots: &[Slot], interval: u32) -> Result<Vec<KernelSlot>, NoMemory>
    requires { 0 < interval }
    ensures slots { IfOk result (λ made. map kernel_slot_of made.items ≡ map (model.kernel_of interval) (slots_of slots.now)) }
{
    let mut made = Vec::new(alloc);
    for slot in slots {
        made.push(kernel_slot(*slot, interval))?;
    }
    Ok(made)
}

/// A number that rises with the offset, and in one offset as the stage falls.
fn rank(slot: KernelSlot) -> u64
    ensures { result ≡ rank_of slot }
{
    u64::from(slot.offset) * (1 << 32) + u64::from(u32::MAX - slot.stage)
}

/// The slots of a kernel by offset, those of an offset with the greater stage first, which is the older turn, and then in the order
/// of the schedule.
pub fn kernel_slots(
    alloc: Global,
    slots: &[Slot],
    interval: u32,
) -> Result<Vec<KernelSlot>, NoMemory>
    requires some { 0 < interval }
    requires rising { All (λ x. x.cycle ≤ present 0 (slots_of slots.now)) (slots_of slots.now) }
    requires small { present 0 (slots_of slots.now) < 2 ^ 32 }
    ensures slots { IfOk result (λ made. map kernel_slot_of made.items ≡ model.kernel_slots interval (slots_of slots.now)) }
    ensures places { IfOk result (λ made. (count : ℕ) → All (λ x. x.place < count) slots.now → All (λ x. x.place < count) made.items) }
{
    let mut made = all_slots(alloc, slots, interval)?;
    made.sort_by_key(|slot| rank(*slot))?;
    Ok(made)
}
