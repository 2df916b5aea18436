//! For every pipeline: every list of events has a list of what it leaves, and each count of what events reach is at most a
//! number or above it. No definition of its own.

ghost use Rattle.std.specs.Prelude.{◌⊎◌, ℕ, Bool, List};
ghost use Rattle.hz_base_model.specs.Pairs.{Pair};
ghost use Rattle.hz_description_model.specs.Reservations.Automata.{UnitPlace};
ghost use Rattle.hz_pipeline_model.specs.Accepting.Events.{Event};
ghost use Rattle.hz_pipeline_model.specs.Accepting.Plays.{Tells};
ghost use Rattle.hz_pipeline_model.specs.Accepting.Replay.{Pipeline};
ghost use Rattle.hz_description_model.specs.Reading.Descriptions.{Description};
ghost use Rattle.hz_description_model.specs.Check.Places.{Known};
ghost use Rattle.hz_pipeline_model.specs.Reaching.Reach.{IsLeft};
ghost use Rattle.hz_pipeline_model.specs.Reaching.Counts.{Count, CountIsAbove, CountIsAtMost};
ghost use Rattle.hz_pipeline_model.specs.Compiling.DescriptionLimits.{AreCounted};

/// Where a test tells units apart, there is for every pipeline and every list of events, accepted or not, a list of all grids
/// that the events leave, each once as a set of pairs.
pub fn what_events_leave_can_be_listed<U>()
    ensures listed { (same : U → U → Bool) → Tells same → (m : Pipeline U) (t : List Event) → (grids : List (List (Pair U))) × IsLeft m t grids }
{}

/// So there is such a list in each automaton, whose units are numbers, and in all automata of a description together.
pub fn what_automata_leave_can_be_listed()
    ensures each { (m : Pipeline ℕ) (t : List Event) → (grids : List (List (Pair ℕ))) × IsLeft m t grids }
    ensures together { (m : Pipeline UnitPlace) (t : List Event) → (grids : List (List (Pair UnitPlace))) × IsLeft m t grids }
{}

/// Where a test tells units apart, each count of every pipeline is at most a number or above it, for every number.
pub fn every_count_is_reported<U>()
    ensures reported { (same : U → U → Bool) → Tells same → (m : Pipeline U) (columns : ℕ) (count : Count) (n : ℕ) → CountIsAtMost m columns count n ⊎ CountIsAbove m columns count n }
{}

/// So each count of each automaton, whose units are numbers, is at most a number or above it.
pub fn every_count_of_an_automaton_is_reported()
    ensures reported { (m : Pipeline ℕ) (columns : ℕ) (count : Count) (n : ℕ) → CountIsAtMost m columns count n ⊎ CountIsAbove m columns count n }
{}

/// So each automaton of every description keeps its limits of states, or has a count above one of them, whatever alternatives its
/// names have.
pub fn limits_are_kept_or_passed()
    ensures reported { (d : Description) (known : Known) → AreCounted d known }
{}
