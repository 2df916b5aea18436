//! Laws of overlapped turns.

ghost use Rattle.std.specs.Prelude.{◌≡◌, ◌<◌, ◌≤◌, ◌+◌, ◌*◌, ℕ, List, length, map, All, sum_by};
ghost use Rattle.std.specs.List.{repeat, Contains};
ghost use Rattle.hz_pipeline_model.specs.Accepting.Replay.{Accepted};
ghost use Rattle.hz_pipeline_model.specs.Compiling.Compiled.{Report, IsCompiled};
ghost use Rattle.hz_description_model.specs.Check.CheckFaults.{IsSound};
ghost use Rattle.hz_description_model.specs.Check.CheckedParts.{automata_of, class_parts};
ghost use Rattle.hz_description_model.specs.Check.Places.{Known};
ghost use Rattle.hz_description_model.specs.Reservations.Automata.{UnitPlace};
ghost use Rattle.hz_block_model.specs.Dependences.Dependences.{Timing};
ghost use Rattle.hz_block_model.specs.Dependences.Graphs.{IsGraph};
ghost use Rattle.hz_description_model.specs.Reading.DescriptionShape.{IsCheckable};
ghost use Rattle.hz_description_model.specs.Reading.Descriptions.{Description};
ghost use Rattle.hz_pipeline_model.specs.Pipelines.Pipelines.{pipeline_with};
ghost use Rattle.hz_block_model.specs.Running.Blocks.{Instruction};
ghost use Rattle.hz_block_model.specs.Running.States.{State, run};
ghost use Rattle.hz_block_model.specs.Scheduled.BlockGraphs.{classes_of, IsGraphOf};
ghost use Rattle.hz_block_model.specs.Scheduled.BlockSchedules.{IsScheduleOf};
ghost use Rattle.hz_block_model.specs.Scheduling.Machines.{Settles};
ghost use Rattle.hz_block_model.specs.Scheduling.Schedules.{Graph, Slot, places, present, Legal};
ghost use Rattle.hz_pipeline_model.specs.Tables.Machines.{Part, Machine, IsMachine, IsWalked};
ghost use Rattle.hz_measure_model.specs.Bounds.Loads.{ways, count};
ghost use Rattle.hz_measure_model.specs.Kernels.Heights.{AreHeights};
ghost use Rattle.hz_measure_model.specs.Kernels.Turns.{turns, run_times};
ghost use Rattle.hz_measure_model.specs.Kernels.Repeats.{timing_of_copies, KeepsCosts, Repeats, IsKernel};
ghost use Rattle.hz_measure_model.specs.Kernels.KernelTexts.{IsKernelOf};

/// Three turns are enough for the costs: if an interval keeps the costs of three turns, it keeps those of any number of them.
pub fn three_turns_are_enough()
    ensures { (m : Machine) (d : Description) (body : List Instruction) (g : Graph) (slots : List Slot) → IsGraphOf d body g → Legal (IsWalked m) g slots → (interval count : ℕ) → KeepsCosts body (timing_of_copies d body g 3) interval slots 3 → KeepsCosts body (timing_of_copies d body g count) interval slots count }
{}

/// An interval that repeats is good for every number of turns: they are a legal schedule of so many copies of the body, and leave from
/// every state what the body leaves, so many times.
pub fn intervals_that_repeat_keep_every_turn()
    ensures legal { (d : Description) (known : Known) (m : Machine) (reports : List Report) → IsSound d known → IsMachine m → IsCompiled d.options (automata_of d) (map (class_parts d known) d.classes) m reports → (body : List Instruction) (g : Graph) (slots : List Slot) → IsGraphOf d body g → Legal (IsWalked m) g slots → (interval first second : ℕ) → 1 ≤ interval → Repeats m body (timing_of_copies d body g 3) g slots interval first second → (count : ℕ) (h : Graph) → IsGraphOf d (repeat count body) h → Legal (Accepted (pipeline_with d known)) h (turns (length body) interval slots count) }
    ensures leaves { (d : Description) (known : Known) (m : Machine) (reports : List Report) → IsSound d known → IsMachine m → IsCompiled d.options (automata_of d) (map (class_parts d known) d.classes) m reports → (body : List Instruction) (g : Graph) (slots : List Slot) → IsGraphOf d body g → Legal (IsWalked m) g slots → (interval first second : ℕ) → 1 ≤ interval → Repeats m body (timing_of_copies d body g 3) g slots interval first second → (count : ℕ) (h : Graph) → IsGraphOf d (repeat count body) h → (state : State) → run (repeat count body) (places (turns (length body) interval slots count)) state ≡ run_times body count state }
{}

/// Every body has a kernel: the interval that is 1,000 cycles longer than its schedule repeats at once, so there is a least one.
pub fn every_body_has_a_kernel()
    ensures long { (d : Description) (m : Machine) → IsCheckable d → IsMachine m → Settles m → (body : List Instruction) (g : Graph) (slots : List Slot) → IsGraphOf d body g → All (λ n. n.class < length m.classes) g.nodes → Legal (IsWalked m) g slots → Repeats m body (timing_of_copies d body g 3) g slots (present 0 slots + 1000) 0 1 }
    ensures some { (d : Description) (m : Machine) → IsCheckable d → IsMachine m → Settles m → (body : List Instruction) (g : Graph) (slots : List Slot) → IsGraphOf d body g → All (λ n. n.class < length m.classes) g.nodes → Legal (IsWalked m) g slots → (interval : ℕ) × (first : ℕ) × (second : ℕ) × IsKernel m body (timing_of_copies d body g 3) g slots interval first second }
{}

/// No interval below a load repeats: one that does has at least as many cycles as the instructions of the body take of any unit. A
/// smaller one would be out of room for it after some number of turns.
pub fn no_interval_below_a_load_repeats()
    ensures { (d : Description) (known : Known) (m : Machine) (reports : List Report) → IsSound d known → IsMachine m → IsCompiled d.options (automata_of d) (map (class_parts d known) d.classes) m reports → (body : List Instruction) (g : Graph) (slots : List Slot) → IsGraphOf d body g → Legal (IsWalked m) g slots → (interval first second : ℕ) → 1 ≤ interval → Repeats m body (timing_of_copies d body g 3) g slots interval first second → (u : UnitPlace) → count (ways (pipeline_with d known) u) (classes_of g) ≤ interval }
{}

/// No interval below heights repeats: what a turn raises the states of a part by is at most what the cycles of one that does give back.
pub fn no_interval_below_heights_repeats()
    ensures { (m : Machine) → IsMachine m → (body : List Instruction) (t three : Timing) (g : Graph) → IsGraph body t g.edges → length g.nodes ≡ length body → (slots : List Slot) → Legal (IsWalked m) g slots → (interval first second : ℕ) → 1 ≤ interval → Repeats m body three g slots interval first second → (part : Part) → Contains m.parts part → (weight : ℕ → ℕ) (share : ℕ) (height : ℕ → ℕ) → AreHeights part (classes_of g) weight share height → sum_by weight (classes_of g) ≤ share * interval }
{}

/// A body has one kernel.
pub fn one_kernel()
    ensures { (m : Machine) (body : List Instruction) (t : Timing) (g : Graph) (slots : List Slot) (i a b j c d : ℕ) → IsKernel m body t g slots i a b → IsKernel m body t g slots j c d → (i ≡ j) × (a ≡ c) × (b ≡ d) }
{}

/// The kernel of a block has one text by a description, and each block with a schedule has some, on the machine that is compiled.
pub fn kernels_have_one_text()
    ensures one { (d : Description) (known : Known) (block : List Instruction) (one other : List ℕ) → IsKernelOf d known block one → IsKernelOf d known block other → one ≡ other }
    ensures some { (d : Description) (known : Known) (m : Machine) (reports : List Report) → IsCheckable d → IsSound d known → IsMachine m → IsCompiled d.options (automata_of d) (map (class_parts d known) d.classes) m reports → Settles m → (block : List Instruction) (g : Graph) (slots : List Slot) → IsScheduleOf d known block g slots → (text : List ℕ) × IsKernelOf d known block text }
{}
