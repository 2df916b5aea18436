//! Laws of schedules on machines that are compiled: they settle, which a list scheduler asks, and their schedules are those of
//! the description.

ghost use Rattle.std.specs.Prelude.{◌≡◌, ◌↔◌, ◌<◌, [], ◌∷◌, ℕ, List, Some, None, length, map, All};
ghost use Rattle.hz_pipeline_model.specs.Accepting.Events.{issue};
ghost use Rattle.hz_pipeline_model.specs.Accepting.Replay.{Accepted};
ghost use Rattle.hz_description_model.specs.Reading.Descriptions.{Description, Options};
ghost use Rattle.hz_description_model.specs.Check.CheckFaults.{IsSound};
ghost use Rattle.hz_description_model.specs.Check.Places.{Known};
ghost use Rattle.hz_description_model.specs.Check.CheckedParts.{AutomatonParts, ClassParts, BypassParts, automata_of, class_parts};
ghost use Rattle.hz_description_model.specs.Check.CheckedShape.{IsKept, AskNothingUnderNdfa};
ghost use Rattle.hz_pipeline_model.specs.Pipelines.Pipelines.{pipeline_with};
ghost use Rattle.hz_pipeline_model.specs.Tables.Machines.{Machine, IsMachine, IsWalked};
ghost use Rattle.hz_pipeline_model.specs.Compiling.Compiled.{Report, IsCompiled};
ghost use Rattle.hz_block_model.specs.Scheduling.Schedules.{Graph, Slot, class_at, Legal, Greedy};
ghost use Rattle.hz_block_model.specs.Scheduling.Machines.{Settles, cannot_start_alone};

/// The machine that is compiled of automata and classes without a fault settles: after any events that it walks, `cycle_limit`
/// cycles more lead each part to its start.
pub fn compiled_machines_settle()
    ensures { (options : Options) (automata : List AutomatonParts) (classes : List ClassParts) (bypasses : List BypassParts) (attributes : List (List ℕ × List (List ℕ))) (m : Machine) (reports : List Report) → IsKept automata classes bypasses attributes → AskNothingUnderNdfa options.ndfa automata → IsMachine m → IsCompiled options automata classes m reports → Settles m }
{}

/// On the machine that is compiled of a description the schedules of a graph are those by what the description accepts, and the
/// first instruction whose class can't be issued from the start is the first that the description does not accept from the start.
pub fn compiled_machines_schedule_as_described()
    ensures legal { (d : Description) (known : Known) → IsSound d known → (m : Machine) (reports : List Report) → IsCompiled d.options (automata_of d) (map (class_parts d known) d.classes) m reports → (g : Graph) → All (λ n. n.class < length d.classes) g.nodes → (slots : List Slot) → Legal (IsWalked m) g slots ↔ Legal (Accepted (pipeline_with d known)) g slots }
    ensures greedy { (d : Description) (known : Known) → IsSound d known → (m : Machine) (reports : List Report) → IsCompiled d.options (automata_of d) (map (class_parts d known) d.classes) m reports → (g : Graph) → All (λ n. n.class < length d.classes) g.nodes → (slots : List Slot) → Greedy (IsWalked m) g slots ↔ Greedy (Accepted (pipeline_with d known)) g slots }
    ensures stuck { (d : Description) (known : Known) → IsSound d known → (m : Machine) (reports : List Report) → IsCompiled d.options (automata_of d) (map (class_parts d known) d.classes) m reports → (g : Graph) → All (λ n. n.class < length d.classes) g.nodes → (place : ℕ) → cannot_start_alone m g ≡ Some place → (place < length g.nodes) × ((i : ℕ) → i < place → Accepted (pipeline_with d known) (issue (class_at g i) ∷ [])) × (Accepted (pipeline_with d known) (issue (class_at g place) ∷ []) → ⊥) }
    ensures start { (d : Description) (known : Known) → IsSound d known → (m : Machine) (reports : List Report) → IsCompiled d.options (automata_of d) (map (class_parts d known) d.classes) m reports → (g : Graph) → All (λ n. n.class < length d.classes) g.nodes → cannot_start_alone m g ≡ None → (i : ℕ) → i < length g.nodes → Accepted (pipeline_with d known) (issue (class_at g i) ∷ []) }
{}
