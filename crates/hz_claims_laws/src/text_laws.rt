//! What the lines of answers tell, by a plain reader: `Reading` of `specs`. Each text gives back what it is of, each value in its place: the
//! issues in their order, the chain and the load, the reads, the slots. Numbers have 64 bits, and names neither spaces nor line feeds.

ghost use Rattle.std.specs.Prelude.{◌≡◌, ℕ, suc, ◌+◌, ◌^◌, ◌<◌, ◌==◌, Bool, cond, if◌then◌else◌, List, [], ◌∷◌, ◌++◌, map, length, All, codes, slice_index, Some};
ghost use Rattle.hz_description_model.specs.Check.Places.{class_names};
ghost use Rattle.hz_description_model.specs.Reading.Descriptions.{Description};
ghost use Rattle.hz_block_model.specs.Running.Blocks.{Instruction};
ghost use Rattle.hz_block_model.specs.Scheduling.Schedules.{Graph, Slot, present};
ghost use Rattle.hz_block_model.specs.Texts.StateTexts.{IsText};
ghost use Rattle.hz_front_model.specs.Texts.{accepted_line, refused_line, ask_line};
ghost use Rattle.hz_measure_model.specs.Bounds.Bounds.{Bound, unit_names};
ghost use Rattle.hz_measure_model.specs.Bounds.Texts.{bound_text, text_of_bound};
ghost use Rattle.hz_measure_model.specs.Exposed.Exposed.{Read, Timed};
ghost use Rattle.hz_measure_model.specs.Exposed.Texts.{reads_text, IsTimedText};
ghost use Rattle.hz_measure_model.specs.Kernels.Kernels.{KernelSlot, kernel_slots};
ghost use Rattle.hz_measure_model.specs.Kernels.KernelTexts.{text_of_slots, text_of_kernel};
ghost use Rattle.hz_measure_model.specs.Kernels.Turns.{stages};
ghost use Rattle.hz_measure_model.specs.TwoContexts.Joining.{ContextSlot, in_contexts};
ghost use Rattle.hz_measure_model.specs.TwoContexts.Texts.{duo_text, text_of_two, last_cycle};
ghost use Rattle.hz_answer_model.specs.ScheduleAnswers.{schedule_text};
ghost use Rattle.hz_answer_model.specs.Texts.{drill_text};
ghost use Rattle.hz_claims_laws.specs.Lines.{AreSmall, HaveSmallCycles, numbers_of, IsSmallLoad, IsSmallPlace, slot_tells, own_tells, kernel_tells, load_tells, read_tells};
ghost use Rattle.hz_claims_laws.specs.Reading.{IsWord, read_answer, an_acceptance, a_refusal, an_ask, an_end, an_end_of_two, both_alone, a_path, a_bound, a_last_cycle, an_interval, some_stages, some_edges, a_list, some_turns, some_states};

/// The line that ends a trace, and the line of an ask, give back what they are of.
pub fn traces_tell_what_they_are_of()
    ensures accepted { (issues cycles : ℕ) → issues < 2 ^ 64 → cycles < 2 ^ 64 → read_answer (accepted_line issues cycles) ≡ Some (an_acceptance issues cycles) ∷ [] }
    ensures refused { (line : ℕ) (class : List ℕ) → line < 2 ^ 64 → IsWord class → read_answer (refused_line line class) ≡ Some (a_refusal line class) ∷ [] }
    ensures asked { (line : ℕ) (unit : List ℕ) (reserved : Bool) → line < 2 ^ 64 → IsWord unit → read_answer (ask_line line unit reserved) ≡ Some (an_ask line unit (if reserved then codes "reserved" else codes "free")) ∷ [] }
{}

/// The text of a schedule tells its slots in their order, then how many they are and the cycle of the last.
pub fn schedules_tell_their_slots()
    ensures { (d : Description) (block : List Instruction) (g : Graph) (slots : List Slot) → All IsWord (class_names d) → AreSmall (map (λ i. i.number) block) → HaveSmallCycles slots → length slots < 2 ^ 64
        → read_answer (schedule_text d block g slots) ≡ map (λ x. Some (slot_tells (class_names d) (map (λ i. i.number) block) g x)) slots ++ Some (an_end (length slots) (present 0 slots)) ∷ [] }
{}

/// The text of a drill tells its turns, its issues and cycles, and the states that it leaves.
pub fn drills_tell_their_states()
    ensures { (turns issues cycles : ℕ) (states : List ℕ) → turns < 2 ^ 64 → issues < 2 ^ 64 → cycles < 2 ^ 64 → AreSmall states
        → read_answer (drill_text turns issues cycles states) ≡ Some (some_turns turns) ∷ Some (an_acceptance issues cycles) ∷ Some (some_states states) ∷ [] }
{}

/// The text of reads tells each in its order: the cycle, the instruction, the register or cell, and who wrote it. What follows is read
/// as it is by itself.
pub fn reads_tell_what_is_read()
    ensures lines { (numbers places cycles : List ℕ) (reads : List Read) (tail : List ℕ) → AreSmall numbers → AreSmall cycles → All (λ r. IsSmallPlace r.what) reads
        → read_answer (reads_text numbers places cycles reads ++ tail) ≡ map (λ r. Some (read_tells numbers places cycles r)) reads ++ read_answer tail }
    ensures of_block { (block : List Instruction) (slots : List Slot) (t : Timed) (text : List ℕ) → IsTimedText block slots t text → AreSmall (numbers_of block) → HaveSmallCycles slots → All (λ r. IsSmallPlace r.what) t.reads
        → (tail : List ℕ) × IsText t.state tail × (read_answer text ≡ map (λ r. Some (read_tells (numbers_of block) (map (λ x. x.place) slots) (map (λ x. x.cycle) slots) r)) t.reads ++ read_answer tail) }
{}

/// The text of a bound tells its path with the chain, its load, the bound, and the last cycle of the schedule.
pub fn bounds_tell_their_chain_and_load()
    ensures lines { (names : List (List (List ℕ))) (numbers : List ℕ) (b : Bound) (cycle : ℕ) → AreSmall numbers → b.path < 2 ^ 64 → b.value < 2 ^ 64 → cycle < 2 ^ 64 → IsSmallLoad names b.load
        → read_answer (bound_text names numbers b cycle) ≡ Some (a_path b.path (map (slice_index numbers) b.chain)) ∷ Some (load_tells names b.load) ∷ Some (a_bound b.value) ∷ Some (a_last_cycle cycle) ∷ [] }
    ensures of_block { (d : Description) (block : List Instruction) (b : Bound) (slots : List Slot) → AreSmall (numbers_of block) → b.path < 2 ^ 64 → b.value < 2 ^ 64 → HaveSmallCycles slots → IsSmallLoad (unit_names d) b.load
        → read_answer (text_of_bound d block b slots) ≡ Some (a_path b.path (map (slice_index (numbers_of block)) b.chain)) ∷ Some (load_tells (unit_names d) b.load) ∷ Some (a_bound b.value) ∷ Some (a_last_cycle (present 0 slots)) ∷ [] }
{}

/// The text of two blocks tells the slots in their order, each of its context; then how many instructions each has with the cycle of the
/// last, and the last cycle of each block alone.
pub fn schedules_of_two_blocks_tell_their_slots()
    ensures lines { (names : List (List ℕ)) (first second : List ℕ) (g h : Graph) (slots : List ContextSlot) (alone_first alone_second : ℕ) → All IsWord names → AreSmall first → AreSmall second
        → All (λ x. (x.cycle < 2 ^ 64) × (x.context < 2 ^ 64)) slots → length first < 2 ^ 64 → length second < 2 ^ 64 → alone_first < 2 ^ 64 → alone_second < 2 ^ 64
        → read_answer (duo_text names first second g h slots alone_first alone_second)
        ≡ map (λ x. Some (cond (x.context == 1) (own_tells names first g x) (own_tells names second h x))) slots ++ Some (an_end_of_two (length first) (length second) (last_cycle 0 slots)) ∷ Some (both_alone alone_first alone_second) ∷ [] }
    ensures of_blocks { (d : Description) (first second : List Instruction) (g h : Graph) (slots alone other : List Slot) → All IsWord (class_names d) → AreSmall (numbers_of first) → AreSmall (numbers_of second)
        → All (λ x. (x.cycle < 2 ^ 64) × (x.context < 2 ^ 64)) (in_contexts (length first) slots) → length (numbers_of first) < 2 ^ 64 → length (numbers_of second) < 2 ^ 64 → HaveSmallCycles alone → HaveSmallCycles other
        → read_answer (text_of_two d first second g h slots alone other)
        ≡ map (λ x. Some (cond (x.context == 1) (own_tells (class_names d) (numbers_of first) g x) (own_tells (class_names d) (numbers_of second) h x))) (in_contexts (length first) slots)
        ++ Some (an_end_of_two (length (numbers_of first)) (length (numbers_of second)) (last_cycle 0 (in_contexts (length first) slots))) ∷ Some (both_alone (present 0 alone) (present 0 other)) ∷ [] }
{}

/// The text of a kernel tells its interval and its stages, its slots in their order, its two edges, and the last cycle of the schedule.
pub fn kernels_tell_their_slots()
    ensures lines { (names : List (List ℕ)) (numbers : List ℕ) (g : Graph) (kernel : List KernelSlot) (interval stages first second last : ℕ)
        → All IsWord names → AreSmall numbers → All (λ x. (x.offset < 2 ^ 64) × (x.stage < 2 ^ 64)) kernel → interval < 2 ^ 64 → stages < 2 ^ 64 → first < 2 ^ 64 → second < 2 ^ 64 → last < 2 ^ 64
        → read_answer (text_of_slots names numbers g kernel interval stages first second last)
        ≡ Some (an_interval interval) ∷ Some (some_stages stages) ∷ (map (λ x. Some (kernel_tells names numbers g x)) kernel ++ Some (some_edges first second) ∷ Some (a_list last) ∷ []) }
    ensures of_block { (d : Description) (block : List Instruction) (g : Graph) (slots : List Slot) (interval first second : ℕ)
        → All IsWord (class_names d) → AreSmall (numbers_of block) → All (λ x. (x.offset < 2 ^ 64) × (x.stage < 2 ^ 64)) (kernel_slots interval slots) → interval < 2 ^ 64 → stages interval slots + 1 < 2 ^ 64 → first < 2 ^ 64 → second < 2 ^ 64 → HaveSmallCycles slots
        → read_answer (text_of_kernel d block g slots interval first second)
        ≡ Some (an_interval interval) ∷ Some (some_stages (suc (stages interval slots))) ∷ (map (λ x. Some (kernel_tells (class_names d) (numbers_of block) g x)) (kernel_slots interval slots) ++ Some (some_edges first second) ∷ Some (a_list (present 0 slots)) ∷ []) }
{}
