//! Laws of the schedules of a block.

ghost use Rattle.std.specs.Prelude.{◌≡◌, ℕ, List, All};
ghost use Rattle.hz_pipeline_model.specs.Accepting.Replay.{Accepted};
ghost use Rattle.hz_description_model.specs.Check.Places.{Known};
ghost use Rattle.hz_description_model.specs.Reading.Descriptions.{Description};
ghost use Rattle.hz_pipeline_model.specs.Pipelines.Pipelines.{pipeline_with};
ghost use Rattle.hz_block_model.specs.Running.Blocks.{Instruction};
ghost use Rattle.hz_block_model.specs.Dependences.Classes.{ClassFault};
ghost use Rattle.hz_block_model.specs.Scheduling.Schedules.{Graph, Slot, Legal};
ghost use Rattle.hz_block_model.specs.Scheduled.BlockGraphs.{IsFirstClassFault, IsGraphOf, classes_of};
ghost use Rattle.hz_block_model.specs.Scheduled.BlockSchedules.{StartsAlone, IsFirstStuck, IsScheduleOf, KeepsBlock};

/// A legal schedule of a block's dependence graph has the block's instructions each once, keeps every latency and bypass, is
/// accepted, and leaves from every state what the order of the source leaves.
pub fn legal_schedules_keep_the_block()
    ensures { (d : Description) (known : Known) (block : List Instruction) (g : Graph) (slots : List Slot) → IsGraphOf d block g → Legal (Accepted (pipeline_with d known)) g slots → KeepsBlock d known block g slots }
{}

/// A block has one schedule, whatever the order of its graph's edges: the same slots, and the same classes.
pub fn one_schedule_of_a_block()
    ensures { (d : Description) (known : Known) (block : List Instruction) (g h : Graph) (s t : List Slot) → IsScheduleOf d known block g s → IsScheduleOf d known block h t → (classes_of g ≡ classes_of h) × (s ≡ t) }
{}

/// A block's first class fault is one; where there is one, it has no graph.
pub fn one_class_fault()
    ensures one { (d : Description) (block : List Instruction) (i j : Instruction) (e f : ClassFault) → IsFirstClassFault d block i e → IsFirstClassFault d block j f → (i ≡ j) × (e ≡ f) }
    ensures none { (d : Description) (block : List Instruction) (i : Instruction) (e : ClassFault) (g : Graph) → IsFirstClassFault d block i e → IsGraphOf d block g → ⊥ }
{}

/// The first instruction that can't be issued from the start is one; where there is one, not all of them can. (The block may still
/// have a schedule, after instructions whose units a presence set wants.)
pub fn one_stuck_instruction()
    ensures one { (d : Description) (known : Known) (block : List Instruction) (i j : Instruction) → IsFirstStuck d known block i → IsFirstStuck d known block j → i ≡ j }
    ensures none { (d : Description) (known : Known) (block : List Instruction) (i : Instruction) → IsFirstStuck d known block i → All (StartsAlone d known) block → ⊥ }
{}
