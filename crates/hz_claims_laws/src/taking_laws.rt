//! In which cycles an alternative takes a unit, and which units have a load.

ghost use Rattle.std.specs.Prelude.{◌≡◌, ◌↔◌, ℕ, List, Contains, IsTrue};
ghost use Rattle.std.specs.Ordering.{nat_cmp};
ghost use Rattle.hz_base_model.specs.Pairs.{Pair, IsAscendingBy};
ghost use Rattle.hz_description_model.specs.Reservations.Alternatives.{Alternative};
ghost use Rattle.hz_description_model.specs.Reservations.Automata.{UnitPlace};
ghost use Rattle.hz_pipeline_model.specs.Accepting.Replay.{Pipeline, alternatives_at};
ghost use Rattle.hz_measure_model.specs.Bounds.Bounds.{UnitLoad, units_from, loads_of};
ghost use Rattle.hz_measure_model.specs.Bounds.Loads.{takes, cycles_in, cycles_at, ways};
ghost use Rattle.hz_claims_laws.specs.Taking.{AreTaken, AreTakenInEach, IsLoadOf};

/// An alternative takes a unit exactly in the cycles of its pairs of the unit: each is listed once, and they ascend. The same holds of
/// each alternative of a class, and of a grid that ascends.
pub fn units_are_taken_in_the_cycles_of_their_pairs()
    ensures of_alternative { (u : UnitPlace) (a : Alternative UnitPlace) → AreTaken u a.pairs (cycles_in u a) }
    ensures of_class { (m : Pipeline UnitPlace) (u : UnitPlace) (k : ℕ) → AreTakenInEach u (alternatives_at m k) (ways m u k) }
    ensures of_grid { (unit : ℕ) (grid : List (Pair ℕ)) → IsAscendingBy nat_cmp grid → AreTaken unit grid (cycles_at unit grid) }
    ensures of_pair { (u : UnitPlace) (p : Pair UnitPlace) → IsTrue (takes u p) ↔ (p.unit ≡ u) }
{}

/// Each unit of each automaton has its load, if some instruction can't do without it, and there are no others.
pub fn every_unit_has_its_load()
    ensures { (taken : UnitPlace → ℕ → List (List ℕ)) (names : List (List (List ℕ))) (classes : List ℕ) (l : UnitLoad) → Contains (loads_of taken (units_from 0 names) classes) l ↔ IsLoadOf taken names classes l }
{}
