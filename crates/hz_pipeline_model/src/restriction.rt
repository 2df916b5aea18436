//! Laws of a pipeline inside one automaton.

ghost use Rattle.std.specs.Prelude.{ℕ, ◌↔◌, List};
ghost use Rattle.hz_description_model.specs.Reservations.Automata.{UnitPlace};
ghost use Rattle.hz_pipeline_model.specs.Accepting.Restricted.{IsOf, restricted};
ghost use Rattle.hz_pipeline_model.specs.Accepting.Replay.{Pipeline, Accepted, FirstRefused};
ghost use Rattle.hz_pipeline_model.specs.Accepting.Events.{Event};

/// A machine with the units of one automaton alone accepts and refuses as its restriction to that automaton does, where
/// equal items of a class's list count once.
pub fn one_automaton_is_its_restriction()
    ensures acceptance { (automaton : ℕ) (m : Pipeline UnitPlace) → IsOf automaton m → (t : List Event) → Accepted m t ↔ Accepted (restricted automaton m) t }
    ensures refused { (automaton : ℕ) (m : Pipeline UnitPlace) → IsOf automaton m → (t : List Event) (i : ℕ) → FirstRefused m t i ↔ FirstRefused (restricted automaton m) t i }
{}
