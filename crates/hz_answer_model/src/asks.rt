//! Laws of asks: what is reported, and of which units.

ghost use Rattle.std.specs.Prelude.{◌≡◌, ◌↔◌, ℕ, List, [], Contains, Some, IsTrue, slice_get, slice_index_or};
ghost use Rattle.hz_pipeline_model.specs.Accepting.Events.{Event, ask};
ghost use Rattle.hz_pipeline_model.specs.Traces.TraceNames.{TraceNames, query_place};
ghost use Rattle.hz_front_model.specs.Asks.{AsksSay, held_in, trace_names};
ghost use Rattle.hz_answer_model.specs.TableAnswers.{reported_by};
ghost use Rattle.hz_answer_model.specs.AskPlaces.{IsReportedByPlaces, AskedSays};
ghost use Rattle.hz_pipeline_model.specs.Compiling.AutomatonPipelines.{query_unit};
ghost use Rattle.hz_pipeline_model.specs.Tables.Machines.{Machine};
ghost use Rattle.hz_description_model.specs.Check.Places.{Known, unit_place};
ghost use Rattle.hz_description_model.specs.Check.CheckFaults.{IsSound};
ghost use Rattle.hz_description_model.specs.Reading.Descriptions.{Description, UnitItem};

/// What a description tells at the asks of events, and what a machine tells, is in parts, one for each event: that of an ask is
/// its line, by the events before its place and the line at its place, and that of any other event is empty. By a description
/// the line of an ask is by what `Asked` says of its place.
pub fn asks_are_reported_at_their_places()
    ensures description { (d : Description) (known : Known) (names : TraceNames) (lines : List ℕ) (events : List Event) (text : List ℕ) → AsksSay (held_in d known) names [] lines events text ↔ IsReportedByPlaces (held_in d known) names lines events text }
    ensures machine { (m : Machine) (names : TraceNames) (lines : List ℕ) (events : List Event) (text : List ℕ) → AsksSay (reported_by m) names [] lines events text ↔ IsReportedByPlaces (reported_by m) names lines events text }
    ensures asked { (d : Description) (known : Known) (names : TraceNames) (lines : List ℕ) (events : List Event) (text : List ℕ) (reported : IsReportedByPlaces (held_in d known) names lines events text) (p a u : ℕ) → slice_get events p ≡ Some (ask a u) → AskedSays d known names events p (slice_index_or lines p 0) a u (slice_index_or (reported.parts) p []) }
{}

/// In a description without a fault, an ask of a name is answered by the unit that the name stands for in reservations and sets.
/// That is a query unit, and each query unit is found by its name.
pub fn asks_are_of_the_units_they_name()
    ensures named { (d : Description) (known : Known) → IsSound d known → (name : List ℕ) (a q : ℕ) → query_place (trace_names d) name ≡ Some (a, q) → unit_place d name ≡ Some (query_unit d a q) }
    ensures query { (d : Description) (name : List ℕ) (a q : ℕ) → query_place (trace_names d) name ≡ Some (a, q) → (u : UnitItem) × Contains d.units u × (u.name ≡ name) × IsTrue u.query }
    ensures found { (d : Description) (known : Known) → IsSound d known → (u : UnitItem) → Contains d.units u → IsTrue u.query → (a q : ℕ) × (query_place (trace_names d) u.name ≡ Some (a, q)) }
{}
