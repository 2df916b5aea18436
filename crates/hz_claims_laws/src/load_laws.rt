//! What a load counts.

ghost use Rattle.std.specs.Prelude.{◌≡◌, ◌⊎◌, ℕ, ◌+◌, ◌≤◌, List, length, Contains, Some, None, sum_by};
ghost use Rattle.hz_description_model.specs.Reservations.Automata.{UnitPlace};
ghost use Rattle.hz_measure_model.specs.Bounds.Bounds.{UnitLoad, units_from, loads_of, heaviest};
ghost use Rattle.hz_measure_model.specs.Bounds.Loads.{Load, force, load_of};
ghost use Rattle.hz_claims_laws.specs.UnitOrder.{ComesBefore};
ghost use Rattle.hz_claims_laws.specs.Users.{TakesAt};

/// The count of a load is what all instructions ask for together: each as few cycles as some alternative of its class takes. The span is as
/// far as two cycles are apart in which instructions take the unit that can't do without it, and no two are further apart. The value is
/// the least last cycle that leaves room for so many different cycles: those up to it, and the span after it. There is no load only if no
/// instruction asks for a cycle.
pub fn a_load_is_as_great_as_counting_gives()
    ensures fewest { (taken : ℕ → List (List ℕ)) (k : ℕ) (w : List ℕ) → Contains (taken k) w → force taken k ≤ length w }
    ensures some_fewest { (taken : ℕ → List (List ℕ)) (k : ℕ) (w : List ℕ) → Contains (taken k) w → (v : List ℕ) × Contains (taken k) v × (length v ≡ force taken k) }
    ensures counted { (taken : ℕ → List (List ℕ)) (classes : List ℕ) (l : Load) → load_of taken classes ≡ Some l → l.count ≡ sum_by (force taken) classes }
    ensures unasked { (taken : ℕ → List (List ℕ)) (classes : List ℕ) (k : ℕ) → load_of taken classes ≡ None → Contains classes k → force taken k ≡ 0 }
    ensures within { (taken : ℕ → List (List ℕ)) (classes : List ℕ) (l : Load) (c e : ℕ) → load_of taken classes ≡ Some l → TakesAt taken classes c → TakesAt taken classes e → c ≤ e + l.span }
    ensures apart { (taken : ℕ → List (List ℕ)) (classes : List ℕ) (l : Load) → load_of taken classes ≡ Some l → (c : ℕ) × (e : ℕ) × TakesAt taken classes c × TakesAt taken classes e × (c ≡ e + l.span) }
    ensures room { (taken : ℕ → List (List ℕ)) (classes : List ℕ) (l : Load) → load_of taken classes ≡ Some l → l.count ≤ l.value + (l.span + 1) }
    ensures no_less { (taken : ℕ → List (List ℕ)) (classes : List ℕ) (l : Load) (v : ℕ) → load_of taken classes ≡ Some l → l.count ≤ v + (l.span + 1) → l.value ≤ v }
{}

/// Of equal loads that of the first unit is reported: the least automaton, and in it the least number.
pub fn of_equal_loads_the_first_unit_is_named()
    ensures { (taken : UnitPlace → ℕ → List (List ℕ)) (names : List (List (List ℕ))) (classes : List ℕ) (l o : UnitLoad) → heaviest (loads_of taken (units_from 0 names) classes) ≡ Some l
        → Contains (loads_of taken (units_from 0 names) classes) o → (o.load).value ≡ (l.load).value → (o ≡ l) ⊎ ComesBefore l.unit o.unit }
{}
