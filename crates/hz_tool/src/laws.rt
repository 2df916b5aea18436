//! Laws of the calls of the library that the program makes.

ghost use Rattle.std.specs.Prelude.{List, All, length};
ghost use Rattle.hz_pipeline_model.specs.Accepting.Events.{Event, IsOfClass};
ghost use Rattle.hz_pipeline_model.specs.Pipelines.Pipelines.{pipeline_with};
ghost use Rattle.hz_auto.specs.declared.compiled.Compiled.{Compiled};
ghost use Rattle.hz_check.specs.Checked.{IsCheckedOf};
ghost use Rattle.hz_checked.specs.declared.checked.Checked.{Checked};
ghost use Rattle.hz_description_model.specs.Reading.Descriptions.{Description};
ghost use Rattle.hz_replay.specs.Replaying.{IsOutcome};
ghost use Rattle.hz_replay.specs.declared.outcome.Outcome.{Outcome};
ghost use Rattle.hz_tables.specs.Machines.{machine_of};
ghost use Rattle.hz_tool.specs.Compiled.{IsCompiledBy};
ghost use Rattle.hz_tool.specs.Replays.{IsReplayOf};

/// Whatever `replay` answers over the machine that `compile` made of a checked description is what the description says of
/// the events: all are accepted exactly when it accepts them, and else the first that it does not accept is refused.
pub fn replay_answers_for_the_description()
    ensures { (d : Description) (checked : Checked) (is : IsCheckedOf d checked) (compiled : Compiled) → IsCompiledBy checked compiled
        → (events : List Event) → All (IsOfClass (length compiled.machine.classes.items)) events
        → (outcome : Outcome) → IsOutcome (machine_of compiled.machine) events outcome → IsReplayOf (pipeline_with d is.known) events outcome }
{}
