//! Laws of what alternatives take, for any units.

ghost use Rattle.std.specs.Prelude.{◌≡◌, ◌↔◌, ℕ, suc, Bool, true, List, Contains};
ghost use Rattle.hz_base_model.specs.Pairs.{Pair};
ghost use Rattle.hz_pipeline_model.specs.Accepting.Plays.{Tells};
ghost use Rattle.hz_why_model.specs.Takes.{Stretch, stretches, are_same};
ghost use Rattle.hz_why_laws.specs.Stretched.{SomeHas};

/// A unit is in a cycle of a stretch exactly if the pair of them is among the pairs.
pub fn stretches_are_the_pairs<U>()
    ensures { (same : U → U → Bool) → Tells same → (pairs : List (Pair U)) (u : U) (cycle : ℕ) → SomeHas (stretches same pairs) u cycle ↔ Contains pairs (record { unit = u; cycle = cycle }) }
{}

/// No stretch could be longer: its unit is not taken in the cycle after its last, nor in the one before its first.
pub fn stretches_are_as_long_as_can_be<U>()
    ensures after { (same : U → U → Bool) → Tells same → (pairs : List (Pair U)) (s : Stretch U) → Contains (stretches same pairs) s → Contains pairs (record { unit = s.unit; cycle = suc s.last }) → ⊥ }
    ensures before { (same : U → U → Bool) → Tells same → (pairs : List (Pair U)) (s : Stretch U) → Contains (stretches same pairs) s → (cycle : ℕ) → suc cycle ≡ s.first → Contains pairs (record { unit = s.unit; cycle = cycle }) → ⊥ }
{}

/// Two alternatives have one line exactly if their lists of pairs are equal.
pub fn alternatives_of_one_line_take_the_same<U>()
    ensures { (same : U → U → Bool) → Tells same → (xs ys : List (Pair U)) → (are_same same xs ys ≡ true) ↔ (xs ≡ ys) }
{}
