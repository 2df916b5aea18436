//! Turns and kernels of small schedules, computed.

ghost use Rattle.std.specs.Prelude.{◌≡◌, ℕ, List, [], ◌∷◌, Some, None};
ghost use Rattle.hz_pipeline_model.specs.Tables.Machines.{machine_walk};
ghost use Rattle.hz_block_model.specs.Scheduling.Schedules.{Slot, spell};
ghost use Rattle.hz_block_model.specs.Scheduled.BlockGraphs.{classes_of};
ghost use Rattle.hz_measure_model.specs.Bounds.Loads.{count};
ghost use Rattle.hz_measure_model.specs.Kernels.Examples.{at, part, two_slots, one_node, one_slot, one_unit};
ghost use Rattle.hz_measure_model.specs.Kernels.Turns.{repeated, turns, start, stages};
ghost use Rattle.hz_measure_model.specs.Kernels.Kernels.{kernel_slots};

/// Two instructions, the second four cycles after the first, at interval 4: in the kernel both stand at one offset, the older turn
/// first.
pub fn turns_of_two()
    ensures turns { turns 2 4 two_slots 2 ≡ at 0 0 ∷ at 1 4 ∷ at 2 4 ∷ at 3 8 ∷ [] }
    ensures kernel { kernel_slots 4 two_slots ≡ part 0 1 1 ∷ part 0 0 0 ∷ [] }
    ensures stages { stages 4 two_slots ≡ 1 }
    ensures none { turns 0 1 [] 3 ≡ [] }
{}

/// An interval of as many cycles as the load of a unit may repeat. One instruction takes its unit for two cycles: at interval 2 the
/// states at the first two starts are the same, and both turns are walked. At interval 1 the second turn is not.
pub fn a_load_is_an_interval()
    ensures load { count (λ k. (0 ∷ 1 ∷ []) ∷ []) (classes_of one_node) ≡ 2 }
    ensures first { machine_walk one_unit (start 1 2 one_slot one_node 0) ≡ Some (0 ∷ []) }
    ensures second { machine_walk one_unit (start 1 2 one_slot one_node 1) ≡ Some (0 ∷ []) }
    ensures walked { machine_walk one_unit (spell (repeated one_node 2) (turns 1 2 one_slot 2)) ≡ Some (1 ∷ []) }
    ensures refused { machine_walk one_unit (spell (repeated one_node 2) (turns 1 1 one_slot 2)) ≡ None }
{}
