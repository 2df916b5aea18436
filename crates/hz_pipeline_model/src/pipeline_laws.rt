//! Laws of the pipeline of a description.

ghost use Rattle.std.specs.Prelude.{◌≤◌, length};
ghost use Rattle.hz_description_model.specs.Reservations.Automata.{UnitPlace};
ghost use Rattle.hz_description_model.specs.Reading.Descriptions.{Description};
ghost use Rattle.hz_pipeline_model.specs.Accepting.Restricted.{IsOf};
ghost use Rattle.hz_pipeline_model.specs.Pipelines.Pipelines.{IsPipelineOf};
ghost use Rattle.hz_pipeline_model.specs.Accepting.Replay.{Pipeline};

/// A description with fewer than two automata has the units of automaton 0 alone.
pub fn fewer_than_two_automata_are_one()
    ensures { (d : Description) (m : Pipeline UnitPlace) → length d.automata ≤ 1 → IsPipelineOf d m → IsOf 0 m }
{}
