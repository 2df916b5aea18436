//! Laws of the greatest load.

ghost use Rattle.std.specs.Prelude.{◌≡◌, ◌<◌, ◌≤◌, List, [], ◌∷◌, ◌++◌, Some, None, All};
ghost use Rattle.hz_measure_model.specs.Bounds.Bounds.{UnitLoad, heaviest};

/// The heaviest load is the first of the greatest value: each before it has less, and none after it has more. There is none only of
/// no loads.
pub fn the_heaviest_is_the_first_of_the_greatest()
    ensures some { (loads : List UnitLoad) (l : UnitLoad) → heaviest loads ≡ Some l → (front : List UnitLoad) × (back : List UnitLoad) × (loads ≡ front ++ l ∷ back) × All (λ o. o.load.value < l.load.value) front × All (λ o. o.load.value ≤ l.load.value) back }
    ensures none { (loads : List UnitLoad) → heaviest loads ≡ None → loads ≡ [] }
{}
