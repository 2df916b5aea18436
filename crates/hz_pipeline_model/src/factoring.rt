//! Laws of a description with several automata that keeps the two rules.

ghost use Rattle.std.specs.Prelude.{◌≡◌, ◌↔◌, ◌<◌, ℕ, false, List, Contains, take};
ghost use Rattle.hz_base_model.specs.Pairs.{Pair};
ghost use Rattle.hz_description_model.specs.Reservations.Alternatives.{Alternative, alternatives_of};
ghost use Rattle.hz_description_model.specs.Reservations.Automata.{UnitPlace, cut, list_in};
ghost use Rattle.hz_pipeline_model.specs.Accepting.Events.{Event};
ghost use Rattle.hz_pipeline_model.specs.Accepting.Replay.{State, MayTake, chosen, Accepted, FirstRefused};
ghost use Rattle.hz_pipeline_model.specs.Accepting.Asking.{IsHeld};
ghost use Rattle.hz_pipeline_model.specs.Accepting.Restricted.{restricted};
ghost use Rattle.hz_description_model.specs.Reading.Descriptions.{Description, ClassItem};
ghost use Rattle.hz_description_model.specs.Check.CheckFaults.{IsSound};
ghost use Rattle.hz_description_model.specs.Check.Places.{Known};
ghost use Rattle.hz_description_model.specs.Check.CheckedParts.{automaton_count};
ghost use Rattle.hz_pipeline_model.specs.Pipelines.Pipelines.{pipeline_with};
ghost use Rattle.hz_pipeline_model.specs.Pipelines.Factored.{IsUnion, state_in};

/// A description accepts events exactly where each of its automata does, in both treatments: so it refuses first where
/// some automaton refuses first and none has refused before.
pub fn automata_choose_by_themselves()
    ensures acceptance { (d : Description) (known : Known) → IsSound d known → (t : List Event) → Accepted (pipeline_with d known) t ↔ ((a : ℕ) → a < automaton_count d → Accepted (restricted a (pipeline_with d known)) t) }
    ensures refused { (d : Description) (known : Known) → IsSound d known → (t : List Event) (i : ℕ) → FirstRefused (pipeline_with d known) t i ↔ (((a : ℕ) × (a < automaton_count d) × FirstRefused (restricted a (pipeline_with d known)) t i) × ((a : ℕ) → a < automaton_count d → Accepted (restricted a (pipeline_with d known)) (take i t))) }
{}

/// The sets of pairs of the alternatives of a class are exactly the unions of one grid from each automaton's list.
pub fn alternatives_are_unions_of_grids()
    ensures each { (d : Description) (known : Known) → IsSound d known → (c : ClassItem) → Contains d.classes c → (grids : ℕ → List (Pair ℕ)) → ((a : ℕ) → a < automaton_count d → Contains (list_in a (alternatives_of known c.expression)) (grids a)) → (x : Alternative UnitPlace) × Contains (alternatives_of known c.expression) x × IsUnion (automaton_count d) grids x.pairs }
    ensures only { (d : Description) (known : Known) → IsSound d known → (c : ClassItem) → Contains d.classes c → (x : Alternative UnitPlace) → Contains (alternatives_of known c.expression) x → ((a : ℕ) → Contains (list_in a (alternatives_of known c.expression)) (cut a x.pairs)) × IsUnion (automaton_count d) (λ a. cut a x.pairs) x.pairs }
{}

/// What an issue may take is the union of what it may take in each automaton: in the first treatment the first
/// alternative that fits is the union of the first grid that fits of each list.
pub fn issues_are_taken_in_each_automaton()
    ensures parts { (d : Description) (known : Known) → IsSound d known → (s : State UnitPlace) (k i : ℕ) → MayTake (pipeline_with d known) s k i → (a : ℕ) → a < automaton_count d → (j : ℕ) × MayTake (restricted a (pipeline_with d known)) (state_in a s) k j × (chosen (restricted a (pipeline_with d known)) k j ≡ cut a (chosen (pipeline_with d known) k i)) }
    ensures whole { (d : Description) (known : Known) → IsSound d known → (s : State UnitPlace) (k : ℕ) (choices : ℕ → ℕ) → ((a : ℕ) → a < automaton_count d → MayTake (restricted a (pipeline_with d known)) (state_in a s) k (choices a)) → (i : ℕ) × MayTake (pipeline_with d known) s k i × ((a : ℕ) → a < automaton_count d → chosen (restricted a (pipeline_with d known)) k (choices a) ≡ cut a (chosen (pipeline_with d known) k i)) × IsUnion (automaton_count d) (λ a. chosen (restricted a (pipeline_with d known)) k (choices a)) (chosen (pipeline_with d known) k i) }
{}

/// Without `ndfa` a unit is held in the present cycle exactly where it is held in its automaton by itself.
pub fn units_are_held_in_their_automaton()
    ensures { (d : Description) (known : Known) → IsSound d known → d.options.ndfa ≡ false → (t : List Event) → Accepted (pipeline_with d known) t → (a unit : ℕ) → a < automaton_count d → IsHeld (pipeline_with d known) t (record { automaton = a; unit = unit }) ↔ IsHeld (restricted a (pipeline_with d known)) t unit }
{}
