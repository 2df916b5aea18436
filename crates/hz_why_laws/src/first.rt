//! Laws of which of several reasons is named, for any units.

ghost use Rattle.std.specs.Prelude.{◌≡◌, Bool, List, Some};
ghost use Rattle.hz_base_model.specs.Pairs.{Pair};
ghost use Rattle.hz_description_model.specs.Reservations.Sets.{Statement};
ghost use Rattle.hz_pipeline_model.specs.Accepting.Plays.{Tells};
ghost use Rattle.hz_why_model.specs.Reasons.{Reason, first_reason};
ghost use Rattle.hz_why_laws.specs.First.{IsFirstReason};

/// What is named is the first by the order of the rules: of pairs, then of statements, of cycles, of units, of patterns.
pub fn the_first_reason_is_named<U>()
    ensures { (same : U → U → Bool) → Tells same → (statements : List (Statement U)) (source added : List (Pair U)) (reason : Reason U) → first_reason same source added statements ≡ Some reason → IsFirstReason statements source added reason }
{}
