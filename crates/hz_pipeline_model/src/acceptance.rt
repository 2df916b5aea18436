//! Laws of acceptance, for both treatments and any units.

ghost use Rattle.std.specs.Prelude.{◌≡◌, ℕ, ◌+◌, ◌↔◌, ◌⊎◌, Bool, Contains, List, ◌∷◌, ◌++◌, length, take, Some, slice_get};
ghost use Rattle.std.specs.Bool.{Decides};
ghost use Rattle.hz_pipeline_model.specs.Accepting.Plays.{Tells, plays, accepts};
ghost use Rattle.hz_pipeline_model.specs.Accepting.Replay.{Pipeline, SamePipeline, State, start, Plays, IsPlayable, first_fit, ChoiceFirst, IsChoice, Accepted, FirstRefused, calendar};
ghost use Rattle.hz_pipeline_model.specs.Accepting.Events.{Event, issue, advance, issues_of, cycles_of};
ghost use Rattle.hz_pipeline_model.specs.Accepting.Asking.{IsHeld, issues_and_advances};

/// Where a list of events is accepted, each of its prefixes is.
pub fn prefixes_are_accepted<U>()
    ensures { (m : Pipeline U) (xs ys : List Event) → Accepted m (xs ++ ys) → Accepted m xs }
{}

/// The first refused event is an issue, and what precedes it is accepted. There is at most one, and none where all is
/// accepted.
pub fn first_refused_is_an_issue<U>()
    ensures issue { (m : Pipeline U) (t : List Event) (i : ℕ) → FirstRefused m t i → (k : ℕ) × (slice_get t i ≡ Some (issue k)) }
    ensures before { (m : Pipeline U) (t : List Event) (i : ℕ) → FirstRefused m t i → Accepted m (take i t) }
    ensures one { (m : Pipeline U) (t : List Event) (i j : ℕ) → FirstRefused m t i → FirstRefused m t j → i ≡ j }
    ensures none { (m : Pipeline U) (t : List Event) (i : ℕ) → Accepted m t → FirstRefused m t i → ⊥ }
{}

/// `advance a` and then `advance b` are `advance (a + b)`, for acceptance and for each state that a run leaves.
pub fn advances_add_up<U>()
    ensures acceptance { (m : Pipeline U) (a b : ℕ) (xs ys : List Event) → Accepted m (xs ++ advance a ∷ advance b ∷ ys) ↔ Accepted m (xs ++ advance (a + b) ∷ ys) }
    ensures states { (m : Pipeline U) (a b : ℕ) (t : List Event) (old new : State U) → Plays m old (advance a ∷ advance b ∷ t) new ↔ Plays m old (advance (a + b) ∷ t) new }
{}

/// Events that are all moved by n cycles are accepted as before: only differences of cycles count.
pub fn only_differences_of_cycles_count<U>()
    ensures acceptance { (m : Pipeline U) (n : ℕ) (t : List Event) → Accepted m (advance n ∷ t) ↔ Accepted m t }
    ensures refused { (m : Pipeline U) (n : ℕ) (t : List Event) (i : ℕ) → FirstRefused m (advance n ∷ t) (i + 1) ↔ FirstRefused m t i }
{}

/// Acceptance by choices is acceptance by runs.
pub fn accepted_where_a_run_is<U>()
    ensures { (m : Pipeline U) (t : List Event) → Accepted m t ↔ IsPlayable m t }
{}

/// Where a test tells units apart, the states that events can leave are computed, acceptance is decided, and what is not
/// accepted has a first refused event.
pub fn acceptance_is_computed<U>()
    ensures states { (same : U → U → Bool) → Tells same → (m : Pipeline U) (t : List Event) (old new : State U) → Contains (plays same m old t) new ↔ Plays m old t new }
    ensures decided { (same : U → U → Bool) → Tells same → (m : Pipeline U) (t : List Event) → Decides (accepts same m t) (Accepted m t) }
    ensures each { (same : U → U → Bool) → Tells same → (m : Pipeline U) (t : List Event) → Accepted m t ⊎ ((i : ℕ) × FirstRefused m t i) }
{}

/// In the first treatment what is accepted is accepted by its choice.
pub fn accepted_by_the_first_choice<U>()
    ensures { (m : Pipeline U) → m.treatment ≡ first_fit → (t : List Event) → Accepted m t ↔ ((choices : List ℕ) × ChoiceFirst m t choices) }
{}

/// In the first treatment at most one list of choices accepts a list of events.
pub fn one_choice_in_the_first_treatment<U>()
    ensures { (m : Pipeline U) → m.treatment ≡ first_fit → (t : List Event) (p q : List ℕ) → IsChoice m t p → IsChoice m t q → p ≡ q }
{}

/// An alternative is a set of pairs: how its pairs are listed, and whether one is listed twice, changes nothing.
pub fn alternatives_are_sets<U>()
    ensures acceptance { (m o : Pipeline U) → SamePipeline m o → (t : List Event) → Accepted m t ↔ Accepted o t }
    ensures refused { (m o : Pipeline U) → SamePipeline m o → (t : List Event) (i : ℕ) → FirstRefused m t i ↔ FirstRefused o t i }
{}

/// Asks change nothing: without them the same choices are made, and with these as much is reserved, in as many cycles. So the
/// same is accepted, the same states are left, the same units are held, and the same event is refused first.
pub fn asks_change_nothing<U>()
    ensures choices { (m : Pipeline U) (t : List Event) (choices : List ℕ) → IsChoice m t choices ↔ IsChoice m (issues_and_advances t) choices }
    ensures calendar { (m : Pipeline U) (now : ℕ) (t : List Event) (choices : List ℕ) → calendar m now (issues_and_advances t) choices ≡ calendar m now t choices }
    ensures cycles { (t : List Event) → cycles_of (issues_and_advances t) ≡ cycles_of t }
    ensures issues { (t : List Event) → issues_of (issues_and_advances t) ≡ issues_of t }
    ensures acceptance { (m : Pipeline U) (t : List Event) → Accepted m t ↔ Accepted m (issues_and_advances t) }
    ensures states { (m : Pipeline U) (t : List Event) (old new : State U) → Plays m old t new ↔ Plays m old (issues_and_advances t) new }
    ensures held { (m : Pipeline U) (t : List Event) (unit : U) → IsHeld m t unit ↔ IsHeld m (issues_and_advances t) unit }
    ensures refused { (m : Pipeline U) (t : List Event) (j : ℕ) → FirstRefused m (issues_and_advances t) j ↔ ((i : ℕ) × FirstRefused m t i × (j ≡ length (issues_and_advances (take i t)))) }
{}

/// A unit is held after events exactly where what their one choice reserves, or what a run of them leaves, has it in the present
/// cycle. Where a test tells units apart, it is held or it is not.
pub fn reserved_or_free<U>()
    ensures choice { (m : Pipeline U) (t : List Event) (choices : List ℕ) → ChoiceFirst m t choices → (unit : U) → IsHeld m t unit ↔ Contains (calendar m 0 t choices) (record { unit = unit; cycle = cycles_of t }) }
    ensures run { (m : Pipeline U) → m.treatment ≡ first_fit → (t : List Event) (s : State U) → Plays m start t s → (unit : U) → IsHeld m t unit ↔ Contains s.reserved (record { unit = unit; cycle = s.now }) }
    ensures decided { (same : U → U → Bool) → Tells same → (m : Pipeline U) (t : List Event) (unit : U) → IsHeld m t unit ⊎ (IsHeld m t unit → ⊥) }
{}
