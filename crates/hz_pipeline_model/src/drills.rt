//! Laws of drawn traces.

ghost use Rattle.std.specs.Prelude.{◌≡◌, ◌⊎◌, ◌↔◌, ◌+◌, ◌*◌, ◌/◌, ◌%◌, ◌^◌, ℕ, List, [], ◌∷◌, ◌++◌, length, All, Some, None};
ghost use Rattle.hz_pipeline_model.specs.Accepting.Events.{Event, advance, issues_of, cycles_of, IsOfClass};
ghost use Rattle.hz_pipeline_model.specs.Accepting.Asking.{IsOfQuery};
ghost use Rattle.hz_pipeline_model.specs.Traces.Drills.{next_number, number_after, IsAsDrawn, IsOfTurn, upper_from, draw, Drawn};

/// Which traces are accepted, whatever tells it: a machine that walks them, or the pipeline of a description.
pub trait Acceptance {
    ghost accepts: { List Event → Type 0 };
}

/// At most one trace is drawn.
pub fn one_trace_is_drawn<A: Acceptance>()
    ensures { (classes number turns : ℕ) (s t : List Event) → Drawn A.accepts classes number turns s → Drawn A.accepts classes number turns t → s ≡ t }
{}

/// Where each trace is accepted or not, a trace is drawn.
pub fn some_trace_is_drawn<A: Acceptance>()
    ensures { ((t : List Event) → A.accepts t ⊎ (A.accepts t → ⊥)) → (classes number turns : ℕ) → (t : List Event) × Drawn A.accepts classes number turns t }
{}

/// Where the same traces of so many classes are accepted, the same trace is drawn.
pub fn drawn_traces_are_of_what_is_accepted<A: Acceptance, B: Acceptance>()
    ensures { (classes : ℕ) → ((t : List Event) → All (IsOfClass classes) t → A.accepts t ↔ B.accepts t) → (number turns : ℕ) (t : List Event) → Drawn A.accepts classes number turns t ↔ Drawn B.accepts classes number turns t }
{}

/// A drawn trace is accepted where the empty one is, and one more cycle after what is accepted.
pub fn drawn_traces_are_accepted<A: Acceptance>()
    ensures { A.accepts [] → ((t : List Event) → A.accepts t → A.accepts (t ++ advance 1 ∷ [])) → (classes number turns : ℕ) (t : List Event) → Drawn A.accepts classes number turns t → A.accepts t }
{}

/// A drawn trace has one event for each turn, an issue of one of the classes or the advance of one cycle. It asks
/// nothing, so it is of any query units.
pub fn each_turn_is_one_event<A: Acceptance>()
    ensures events { (classes number turns : ℕ) (t : List Event) → Drawn A.accepts classes number turns t → length t ≡ turns }
    ensures counts { (classes number turns : ℕ) (t : List Event) → Drawn A.accepts classes number turns t → issues_of t + cycles_of t ≡ turns }
    ensures kinds { (classes number turns : ℕ) (t : List Event) → Drawn A.accepts classes number turns t → All (IsOfTurn classes) t }
    ensures classes { (classes number turns : ℕ) (t : List Event) → Drawn A.accepts classes number turns t → All (IsOfClass classes) t }
    ensures queries { (queries : List (List (List ℕ))) (classes number turns : ℕ) (t : List Event) → Drawn A.accepts classes number turns t → All (IsOfQuery queries) t }
{}

/// The number of a turn is made of the number of the turn before.
pub fn numbers_of_turns()
    ensures start { (number : ℕ) → number_after number 0 ≡ number }
    ensures next { (number turn : ℕ) → number_after number (turn + 1) ≡ (number_after number turn * 1103515245 + 12345) % 2 ^ 31 }
{}

/// A trace is drawn exactly where it has one event for each turn, and each event is the issue of the class that is drawn at its turn
/// where that is accepted after the events of the turns before, else the advance of one cycle.
pub fn each_turn_issues_what_it_draws<A: Acceptance>()
    ensures { (classes number turns : ℕ) (t : List Event) → Drawn A.accepts classes number turns t ↔ ((length t ≡ turns) × ((before after : List Event) (e : Event) → t ≡ before ++ e ∷ after → IsAsDrawn A.accepts classes number before e)) }
{}

/// The first draws from 1, by hand, and what they are of two classes and of none.
pub fn first_draws()
    ensures first { next_number 1 / upper_from ≡ 16838 }
    ensures second { next_number (next_number 1) / upper_from ≡ 5758 }
    ensures third { next_number (next_number (next_number 1)) / upper_from ≡ 10113 }
    ensures fourth { next_number (next_number (next_number (next_number 1))) / upper_from ≡ 17515 }
    ensures two { draw 2 (next_number (next_number (next_number 1))) ≡ Some 1 }
    ensures none { draw 0 (next_number 1) ≡ None }
{}
