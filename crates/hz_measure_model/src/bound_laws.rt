//! Laws of lower bounds.

ghost use Rattle.std.specs.Prelude.{◌≡◌, ◌<◌, ◌≤◌, ℕ, List, ◌∷◌, map, length, sum_by};
ghost use Rattle.std.specs.List.{Contains};
ghost use Rattle.hz_description_model.specs.Check.CheckedParts.{class_parts};
ghost use Rattle.hz_description_model.specs.Check.Places.{Known};
ghost use Rattle.hz_description_model.specs.Reading.Descriptions.{Description};
ghost use Rattle.hz_description_model.specs.Reservations.Automata.{UnitPlace, list_in};
ghost use Rattle.hz_pipeline_model.specs.Accepting.Replay.{Accepted, Pipeline, alternatives_at};
ghost use Rattle.hz_pipeline_model.specs.Pipelines.Pipelines.{pipeline_with};
ghost use Rattle.hz_block_model.specs.Running.Blocks.{Instruction};
ghost use Rattle.hz_block_model.specs.Dependences.Graphs.{Edge};
ghost use Rattle.hz_block_model.specs.Scheduling.Schedules.{Graph, Slot, present, Legal};
ghost use Rattle.hz_block_model.specs.Scheduled.BlockGraphs.{IsGraphOf};
ghost use Rattle.hz_measure_model.specs.Bounds.Paths.{LeadAlong};
ghost use Rattle.hz_measure_model.specs.Bounds.Loads.{load_of, ways, ways_in, ways_by};
ghost use Rattle.hz_measure_model.specs.Bounds.Bounds.{Bound, IsBoundBy, IsBoundOf, unit_names};

/// No legal schedule of a block ends before the block's bound, in either treatment.
pub fn no_schedule_is_shorter_than_its_bound()
    ensures { (d : Description) (known : Known) (block : List Instruction) (g : Graph) (b : Bound) (slots : List Slot) → IsGraphOf d block g → IsBoundOf d known g b → Legal (Accepted (pipeline_with d known)) g slots → b.value ≤ present 0 slots }
{}

/// A block has a bound, and only one, whatever the order of its graph's edges. So has each graph whose edges lead upwards, whatever
/// its classes take.
pub fn a_block_has_one_bound()
    ensures one { (d : Description) (known : Known) (block : List Instruction) (g h : Graph) (b c : Bound) → IsGraphOf d block g → IsGraphOf d block h → IsBoundOf d known g b → IsBoundOf d known h c → b ≡ c }
    ensures some { (d : Description) (known : Known) (block : List Instruction) (g : Graph) → IsGraphOf d block g → (b : Bound) × IsBoundOf d known g b }
    ensures one_of_a_graph { (taken : UnitPlace → ℕ → List (List ℕ)) (names : List (List (List ℕ))) (g : Graph) (b c : Bound) → ((e : Edge) → Contains g.edges e → (e.from < e.to) × (e.to < length g.nodes)) → IsBoundBy taken names g b → IsBoundBy taken names g c → b ≡ c }
    ensures some_of_a_graph { (taken : UnitPlace → ℕ → List (List ℕ)) (names : List (List (List ℕ))) (g : Graph) → ((e : Edge) → Contains g.edges e → (e.from < e.to) × (e.to < length g.nodes)) → (b : Bound) × IsBoundBy taken names g b }
{}

/// The chain of a bound that is not empty is a way along edges of the graph whose costs are together its greatest tail.
pub fn chains_cost_their_path()
    ensures { (taken : UnitPlace → ℕ → List (List ℕ)) (names : List (List (List ℕ))) (g : Graph) (b : Bound) (j : ℕ) (chain : List ℕ) → IsBoundBy taken names g b → b.chain ≡ j ∷ chain → (edges : List Edge) × LeadAlong g j chain edges × (sum_by (λ e. e.cost) edges ≡ b.path) }
{}

/// The load of a unit is that by the lists of its automaton. So a bound by the lists that a description gives is its bound.
pub fn bounds_are_of_lists()
    ensures loads { (m : Pipeline UnitPlace) (u : UnitPlace) (classes : List ℕ) → load_of (ways m u) classes ≡ load_of (λ k. ways_in u.unit (list_in u.automaton (alternatives_at m k))) classes }
    ensures bounds { (d : Description) (known : Known) (g : Graph) (b : Bound) → IsBoundBy (ways_by (map (λ c. c.lists) (map (class_parts d known) d.classes))) (unit_names d) g b → IsBoundOf d known g b }
{}
