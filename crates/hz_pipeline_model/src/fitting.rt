//! Laws of fitting, for any units.

ghost use Rattle.std.specs.Prelude.{◌≡◌, ◌↔◌, ℕ, List, [], ◌++◌};
ghost use Rattle.hz_base_model.specs.Pairs.{Pair, SamePairs, placed};
ghost use Rattle.hz_description_model.specs.Reservations.Sets.{Statement, Fits};
ghost use Rattle.hz_pipeline_model.specs.Accepting.Replay.{Pipeline, State, Plays, start};
ghost use Rattle.hz_pipeline_model.specs.Accepting.Events.{Event};
ghost use Rattle.hz_pipeline_model.specs.Accepting.Fitting.{IsFuture, IsUnbroken};

/// Fitting is of sets of pairs: how the source and the added pairs are listed changes nothing.
pub fn fitting_is_of_sets<U>()
    ensures { (statements : List (Statement U)) (source listed pairs others : List (Pair U)) (now : ℕ) → SamePairs source listed → SamePairs pairs others → Fits statements source pairs now ↔ Fits statements listed others now }
{}

/// Where no exclusion is broken, what is past may be forgotten: pairs fit what is planned from the present cycle on,
/// placed at cycle 0, exactly where they fit all that stands reserved, placed at the present cycle.
pub fn fitting_needs_the_future_alone<U>()
    ensures { (statements : List (Statement U)) (planned pairs : List (Pair U)) (s : State U) → IsFuture planned s → IsUnbroken statements s.reserved → Fits statements planned pairs 0 ↔ Fits statements s.reserved pairs s.now }
{}

/// Where nothing is reserved no exclusion is broken, and pairs that fit break none, so no run does.
pub fn runs_break_no_exclusion<U>()
    ensures empty { (statements : List (Statement U)) → IsUnbroken statements [] }
    ensures added { (statements : List (Statement U)) (reserved pairs : List (Pair U)) (now : ℕ) → Fits statements reserved pairs now → IsUnbroken statements (reserved ++ placed now pairs) }
    ensures runs { (m : Pipeline U) (t : List Event) (s : State U) → Plays m start t s → IsUnbroken m.statements s.reserved }
{}
