//! Laws of waits, for any units.

ghost use Rattle.std.specs.Prelude.{◌≡◌, ◌↔◌, ℕ, Bool, List, [], ◌∷◌, ◌++◌, Option, None};
ghost use Rattle.hz_pipeline_model.specs.Accepting.Events.{Event, issue, advance};
ghost use Rattle.hz_pipeline_model.specs.Accepting.Plays.{Tells};
ghost use Rattle.hz_pipeline_model.specs.Accepting.Replay.{Pipeline, start, FitsAt, Accepted};
ghost use Rattle.hz_why_model.specs.Waits.{MayFitLater, IsLeastWait};

/// A class has at most one wait. Where a test tells units apart, it has one. A class that fits in no cycle after accepted events fits
/// no empty calendar.
pub fn each_class_has_one_wait<U>()
    ensures one { (m : Pipeline U) (t : List Event) (k : ℕ) (x y : Option ℕ) → IsLeastWait m t k x → IsLeastWait m t k y → x ≡ y }
    ensures some { (same : U → U → Bool) → Tells same → (m : Pipeline U) (t : List Event) (k : ℕ) → (w : Option ℕ) × IsLeastWait m t k w }
    ensures never { (m : Pipeline U) (t : List Event) (k : ℕ) → Accepted m t → IsLeastWait m t k None → (i : ℕ) → FitsAt m start k i → ⊥ }
{}

/// An issue fits so many cycles later, by some choices, exactly where it is accepted after as many advances.
pub fn waits_are_of_acceptance<U>()
    ensures { (same : U → U → Bool) → Tells same → (m : Pipeline U) (t : List Event) (k n : ℕ) → MayFitLater m t k n ↔ Accepted m (t ++ advance n ∷ issue k ∷ []) }
{}
