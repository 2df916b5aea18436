//! Laws of the schedules of two blocks.

ghost use Rattle.std.specs.Prelude.{◌≡◌, ◌+◌, ◌≤◌, ◌<◌, ℕ, List, All, length};
ghost use Rattle.hz_description_model.specs.Check.CheckFaults.{IsSound};
ghost use Rattle.hz_description_model.specs.Check.Places.{Known};
ghost use Rattle.hz_description_model.specs.Reading.Descriptions.{Description};
ghost use Rattle.hz_description_model.specs.Reading.DescriptionShape.{IsCheckable};
ghost use Rattle.hz_pipeline_model.specs.Accepting.Replay.{Accepted};
ghost use Rattle.hz_pipeline_model.specs.Pipelines.Pipelines.{pipeline_with};
ghost use Rattle.hz_block_model.specs.Running.Blocks.{Instruction};
ghost use Rattle.hz_block_model.specs.Scheduling.Schedules.{Graph, Slot, Legal};
ghost use Rattle.hz_block_model.specs.Scheduled.BlockGraphs.{IsGraphOf};
ghost use Rattle.hz_block_model.specs.Scheduled.BlockSchedules.{StartsAlone};
ghost use Rattle.hz_measure_model.specs.TwoContexts.Joining.{joined};
ghost use Rattle.hz_measure_model.specs.TwoContexts.TwoContexts.{IsScheduleOfTwo, KeepsBoth};

/// A legal schedule of two blocks has the instructions of each once, keeps each context's latencies and bypasses, is accepted, and
/// leaves each context what its block in the order of the source leaves, from every pair of states, whatever the other block is.
pub fn schedules_of_two_blocks_keep_both()
    ensures { (d : Description) (known : Known) (first second : List Instruction) (g h : Graph) (slots : List Slot) → IsGraphOf d first g → IsGraphOf d second h → Legal (Accepted (pipeline_with d known)) (joined g h) slots → KeepsBoth d known first second g h slots }
{}

/// Two blocks have one schedule, whatever the order of the edges of their graphs.
pub fn one_schedule_of_two_blocks()
    ensures { (d : Description) (known : Known) (first second : List Instruction) (g h i j : Graph) (s t : List Slot) → IsScheduleOfTwo d known first second g h s → IsScheduleOfTwo d known first second i j t → s ≡ t }
{}

/// Two blocks of a description without a fault, each of whose instructions can be issued from the start, have a schedule.
pub fn two_blocks_have_a_schedule()
    ensures { (d : Description) (known : Known) (first second : List Instruction) → IsCheckable d → IsSound d known → All (StartsAlone d known) first → All (StartsAlone d known) second → (g : Graph) × (h : Graph) × (slots : List Slot) × IsScheduleOfTwo d known first second g h slots }
{}
