//! A worked example: what the counts of an automaton mean, computed on the definitions.

ghost use Rattle.hz_pipeline_model.specs.Reaching.Counts.{grids, states, CountIsAbove, CountIsAtMost};
ghost use Rattle.hz_determ.specs.Worked.{late};

/// A class of `nothing, a` leaves four grids: none, `a` in the next cycle, `a` now, and both. Each is a state, so there are
/// more than three states and not more than four.
pub fn a_late_unit_leaves_four_states()
    ensures more_than_three_grids { CountIsAbove late 1 grids 3 }
    ensures four_grids { CountIsAtMost late 1 grids 4 }
    ensures more_than_three_states { CountIsAbove late 1 states 3 }
    ensures not_more_than_four { CountIsAbove late 1 states 4 → ⊥ }
{}
