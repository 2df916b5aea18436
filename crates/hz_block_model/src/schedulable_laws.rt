//! Every block has a schedule: instructions that can be issued from the start are all issued, one soon after the other.

ghost use Rattle.std.specs.Prelude.{◌≡◌, ℕ, ◌+◌, ◌*◌, ◌≤◌, List, ◌∷◌, ◌++◌, All, length};
ghost use Rattle.hz_description_model.specs.Reading.Descriptions.{Description};
ghost use Rattle.hz_description_model.specs.Reading.DescriptionShape.{IsCheckable};
ghost use Rattle.hz_description_model.specs.Check.CheckFaults.{IsSound};
ghost use Rattle.hz_description_model.specs.Check.Places.{Known};
ghost use Rattle.hz_block_model.specs.Running.Blocks.{Instruction};
ghost use Rattle.hz_block_model.specs.Scheduling.Schedules.{Graph, Slot, present};
ghost use Rattle.hz_block_model.specs.Scheduling.Machines.{most_wait};
ghost use Rattle.hz_block_model.specs.Scheduled.BlockSchedules.{StartsAlone, IsScheduleOf};

/// A block of a description without a fault, each of whose instructions can be issued from the start, has a schedule. In every
/// schedule an issue comes at most `most_wait` cycles after the one before it: `latency_limit` for all waits, and `cycle_limit`
/// until nothing is reserved. So the last comes within so many cycles for each.
pub fn every_block_has_a_schedule()
    ensures some { (d : Description) (known : Known) (block : List Instruction) → IsCheckable d → IsSound d known → All (StartsAlone d known) block → (g : Graph) × (slots : List Slot) × IsScheduleOf d known block g slots }
    ensures next { (d : Description) (known : Known) (block : List Instruction) (g : Graph) (slots : List Slot) → IsCheckable d → IsSound d known → IsScheduleOf d known block g slots → (before after : List Slot) (x : Slot) → slots ≡ before ++ x ∷ after → x.cycle ≤ present 0 before + most_wait }
    ensures soon { (d : Description) (known : Known) (block : List Instruction) (g : Graph) (slots : List Slot) → IsCheckable d → IsSound d known → IsScheduleOf d known block g slots → present 0 slots ≤ most_wait * length slots }
{}
