//! Laws of reasons, for any units.

ghost use Rattle.std.specs.Prelude.{◌≡◌, ◌↔◌, ℕ, Bool, List, [], ◌∷◌, ◌++◌, Some, None, slice_get};
ghost use Rattle.std.specs.Cmp.{IsTotalOrder};
ghost use Rattle.std.specs.FinMap.{IsAntisymmetric};
ghost use Rattle.std.specs.declared.cmp.Ordering.{Ordering};
ghost use Rattle.hz_base_model.specs.Pairs.{Pair, placed, ascending_by};
ghost use Rattle.hz_description_model.specs.Reservations.Alternatives.{Alternative};
ghost use Rattle.hz_description_model.specs.Reservations.Sets.{Statement, Fits};
ghost use Rattle.hz_pipeline_model.specs.Accepting.Events.{Event, issue, cycles_of};
ghost use Rattle.hz_pipeline_model.specs.Accepting.Fitting.{IsUnbroken};
ghost use Rattle.hz_pipeline_model.specs.Accepting.Plays.{Tells};
ghost use Rattle.hz_pipeline_model.specs.Accepting.Replay.{Pipeline, IsChoice, Accepted, alternatives_at, calendar};
ghost use Rattle.hz_why_model.specs.Reasons.{Reason, Forbids, first_reason, reason_of};

/// What forbids pairs keeps them from fitting.
pub fn what_is_forbidden_does_not_fit<U>()
    ensures { (statements : List (Statement U)) (source pairs : List (Pair U)) (now : ℕ) (reason : Reason U) → Forbids statements source (placed now pairs) reason → Fits statements source pairs now → ⊥ }
{}

/// Where a test tells units apart, what is named forbids. If no exclusion is broken, nothing is named exactly where all fits; so it is
/// of an alternative, in any order of units that tells them apart.
pub fn reasons_are_named_where_nothing_fits<U>()
    ensures forbids { (same : U → U → Bool) → Tells same → (source added : List (Pair U)) (statements : List (Statement U)) (reason : Reason U) → first_reason same source added statements ≡ Some reason → Forbids statements source added reason }
    ensures alternative { (same : U → U → Bool) → Tells same → (unit_cmp : U → U → Ordering) → IsTotalOrder unit_cmp → IsAntisymmetric unit_cmp → (statements : List (Statement U)) (source : List (Pair U)) (now : ℕ) (a : Alternative U) → IsUnbroken statements source → reason_of same unit_cmp statements source now a ≡ None ↔ Fits statements source a.pairs now }
{}

/// An issue that is refused after accepted events, whatever their choices, has for each alternative something that is named, and it
/// forbids the alternative.
pub fn refused_alternatives_have_reasons<U>()
    ensures { (same : U → U → Bool) → Tells same → (unit_cmp : U → U → Ordering) → IsTotalOrder unit_cmp → IsAntisymmetric unit_cmp → (m : Pipeline U) (t : List Event) (choices : List ℕ) (k i : ℕ) (a : Alternative U) → IsChoice m t choices → (Accepted m (t ++ issue k ∷ []) → ⊥) → slice_get (alternatives_at m k) i ≡ Some a → (reason : Reason U) × (reason_of same unit_cmp m.statements (calendar m 0 t choices) (cycles_of t) a ≡ Some reason) × Forbids m.statements (calendar m 0 t choices) (placed (cycles_of t) (ascending_by unit_cmp a.pairs)) reason }
{}
