//! Laws of the two rules.

ghost use Rattle.std.specs.Prelude.{◌≡◌, ◌≤◌, ℕ, Bool, List, Option};
ghost use Rattle.hz_description_model.specs.Reservations.Alternatives.{Expression};
ghost use Rattle.hz_description_model.specs.Reservations.Meanings.{Meaning, Unwinds};
ghost use Rattle.hz_description_model.specs.Splits.Rules.{somewhere, of_reservation, passes, passes_in};

/// Where the names in expressions have lower ranks, and no rank is above the depth, replacing names once more changes
/// nothing: what is found inside a name is what is found inside its expression, and a greater depth finds no more.
pub fn depth_is_enough<U>()
    ensures unfolds { (test : Expression → Bool) (meaning : List ℕ → Option (Meaning U)) (ranks : Unwinds meaning) (depth : ℕ) → ((name : List ℕ) → ranks.rank name ≤ depth) → (name : List ℕ) → passes test meaning depth name ≡ of_reservation (somewhere test (passes test meaning depth)) (meaning name) }
    ensures more { (test : Expression → Bool) (meaning : List ℕ → Option (Meaning U)) (ranks : Unwinds meaning) (depth other : ℕ) → ((name : List ℕ) → ranks.rank name ≤ depth) → depth ≤ other → (e : Expression) → passes_in test meaning other e ≡ passes_in test meaning depth e }
{}
