//! The law of exposed pipelines.

ghost use Rattle.std.specs.Prelude.{◌≡◌, ℕ, List, length};
ghost use Rattle.std.specs.List.{range_with_len};
ghost use Rattle.hz_description_model.specs.Reading.Descriptions.{Description};
ghost use Rattle.hz_pipeline_model.specs.Accepting.Events.{Event};
ghost use Rattle.hz_block_model.specs.Running.Blocks.{Instruction};
ghost use Rattle.hz_block_model.specs.Running.States.{State, run};
ghost use Rattle.hz_block_model.specs.Dependences.Dependences.{Timing};
ghost use Rattle.hz_block_model.specs.Dependences.Graphs.{IsGraph};
ghost use Rattle.hz_block_model.specs.Scheduling.Schedules.{Graph, Slot, Legal};
ghost use Rattle.hz_block_model.specs.Scheduled.BlockGraphs.{IsGraphOf};
ghost use Rattle.hz_measure_model.specs.Exposed.Exposed.{exposed};
ghost use Rattle.hz_measure_model.specs.Exposed.ByDescription.{exposed_in};

use hz_block_model::schedule_laws::Acceptance;

/// Over a legal schedule an exposed pipeline leaves, from every state, what the order of the source leaves.
pub fn legal_schedules_need_no_interlock<A: Acceptance>()
    ensures of_a_timing { (block : List Instruction) (t : Timing) (g : Graph) (slots : List Slot) (start : State) → IsGraph block t g.edges → length g.nodes ≡ length block → Legal A.accepts g slots → (exposed block t.number start slots).state ≡ run block (range_with_len 0 (length block)) start }
    ensures of_a_description { (d : Description) (block : List Instruction) (g : Graph) (slots : List Slot) (start : State) → IsGraphOf d block g → Legal A.accepts g slots → (exposed_in d block g slots start).state ≡ run block (range_with_len 0 (length block)) start }
{}
