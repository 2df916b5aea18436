//! Laws of what events leave, for any units.

ghost use Rattle.std.specs.Prelude.{◌↔◌, List};
ghost use Rattle.hz_base_model.specs.Pairs.{Pair};
ghost use Rattle.hz_pipeline_model.specs.Accepting.Events.{Event};
ghost use Rattle.hz_pipeline_model.specs.Accepting.Fitting.{IsFuture};
ghost use Rattle.hz_pipeline_model.specs.Accepting.Replay.{Pipeline, State, Plays, start};
ghost use Rattle.hz_pipeline_model.specs.Reaching.Reach.{Leaves};

/// What choices leave is what runs leave.
pub fn left_where_a_run_leads<U>()
    ensures { (m : Pipeline U) (t : List Event) (grid : List (Pair U)) → Leaves m t grid ↔ ((s : State U) × Plays m start t s × IsFuture grid s) }
{}
