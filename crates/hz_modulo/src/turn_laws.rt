//! What is walked by the slots of a kernel is what the definitions say of its turns.

ghost use Rattle.std.specs.Prelude.{◌≡◌, ◌↔◌, ◌<◌, ◌≤◌, ℕ, List, length, All};
ghost use Rattle.hz_pipeline_model.specs.Tables.Machines.{Machine, IsMachine};
ghost use Rattle.hz_block_model.specs.Dependences.Dependences.{Timing};
ghost use Rattle.hz_block_model.specs.Running.Blocks.{Instruction};
ghost use Rattle.hz_block_model.specs.Scheduling.Schedules.{Graph, Slot, present};
ghost use Rattle.hz_measure_model.specs.Kernels.Kernels.{kernel_slots};
ghost use Rattle.hz_measure_model.specs.Kernels.Repeats.{KeepsCosts, stage_limit, Repeats};
ghost use Rattle.hz_measure_model.specs.Kernels.Turns.{stages};
ghost use Rattle.hz_modulo.specs.Repeating.{RepeatsBy};

/// An interval with few stages that keeps the costs repeats exactly if its kernel does.
pub fn kernels_repeat_as_defined()
    ensures { (m : Machine) (body : List Instruction) (t : Timing) (g : Graph) (slots : List Slot) → IsMachine m → length g.nodes ≡ length body → All (λ x. x.place < length g.nodes) slots → All (λ x. x.cycle ≤ present 0 slots) slots → (interval : ℕ) → 1 ≤ interval → stages interval slots ≤ stage_limit → KeepsCosts body t interval slots 3 → (first second : ℕ) → RepeatsBy m g interval (stages interval slots) (kernel_slots interval slots) first second ↔ Repeats m body t g slots interval first second }
{}
