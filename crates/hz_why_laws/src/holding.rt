//! Laws of the issues that still hold something, for any units.

ghost use Rattle.std.specs.Prelude.{◌≡◌, ◌↔◌, ℕ, List, map, length, Contains};
ghost use Rattle.std.specs.List.{flat_map};
ghost use Rattle.hz_pipeline_model.specs.Accepting.Events.{Event, issues_of, cycles_of};
ghost use Rattle.hz_pipeline_model.specs.Accepting.Replay.{Pipeline};
ghost use Rattle.hz_why_model.specs.Holders.{entries};
ghost use Rattle.hz_why_model.specs.Ways.{Way, ways, ways_left};
ghost use Rattle.hz_why_laws.specs.Holding.{taken_by, HoldsFrom};

/// What the issues of events took is all that is reserved, each pair with the line and the class of its issue.
pub fn issues_took_what_is_reserved<U>()
    ensures { (m : Pipeline U) (now : ℕ) (t : List Event) (lines choices : List ℕ) → flat_map (taken_by m) (ways now t lines choices) ≡ entries m now t lines choices }
{}

/// There is an issue for each choice, and its number is that choice.
pub fn issues_took_the_chosen_alternatives()
    ensures { (now : ℕ) (t : List Event) (lines choices : List ℕ) → length choices ≡ issues_of t → map (λ way. way.number) (ways now t lines choices) ≡ choices }
{}

/// An issue is left exactly if it took something in the present cycle or a later one.
pub fn issues_left_are_those_that_hold<U>()
    ensures { (m : Pipeline U) (t : List Event) (lines choices : List ℕ) (way : Way) → Contains (ways_left m t lines choices) way ↔ (Contains (ways 0 t lines choices) way × HoldsFrom m (cycles_of t) way) }
{}
