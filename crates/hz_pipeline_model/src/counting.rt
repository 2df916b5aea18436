//! Laws of the counts of an automaton, for any units.

ghost use Rattle.std.specs.Prelude.{◌≡◌, ◌↔◌, ℕ, List, Some};
ghost use Rattle.hz_base_model.specs.Pairs.{Pair, SamePairs};
ghost use Rattle.hz_pipeline_model.specs.Accepting.Events.{Event};
ghost use Rattle.hz_pipeline_model.specs.Accepting.Replay.{Pipeline, first_fit};
ghost use Rattle.hz_pipeline_model.specs.Reaching.Reach.{Leaves};
ghost use Rattle.hz_pipeline_model.specs.Reaching.Counts.{Count, grids, states, members, CountIsAbove, CountIsAtMost};

/// No count is both above a number and at most it.
pub fn no_count_is_both<U>()
    ensures { (m : Pipeline U) (columns n : ℕ) (count : Count) → CountIsAbove m columns count n → CountIsAtMost m columns count n → ⊥ }
{}

/// In the first treatment events leave one grid, so grids, states and members are one count.
pub fn one_grid_in_the_first_treatment<U>()
    ensures left { (m : Pipeline U) → m.treatment ≡ first_fit → (t : List Event) (grid other : List (Pair U)) → Leaves m t grid → Leaves m t other → SamePairs grid other }
    ensures states { (m : Pipeline U) → m.treatment ≡ first_fit → (columns n : ℕ) → CountIsAbove m columns grids n ↔ CountIsAbove m columns states n }
    ensures members { (m : Pipeline U) → m.treatment ≡ first_fit → (columns n : ℕ) → CountIsAbove m columns grids n ↔ CountIsAbove m columns members n }
{}
