//! Laws of the texts of traces, whatever names classes and query units have.

ghost use Rattle.std.specs.Prelude.{◌≡◌, ◌≢◌, ◌↔◌, ◌<◌, ℕ, ◌⊎◌, List, [], ◌∷◌, length, codes, All, slice_get, slice_index_or, Some, None, IsTrue};
ghost use Rattle.std.specs.List.{AllPairs, flat_map};
ghost use Rattle.hz_base_model.specs.Names.{is_name};
ghost use Rattle.hz_base_model.specs.Lines.{lines_of, number_of, place_of};
ghost use Rattle.hz_pipeline_model.specs.Accepting.Events.{Event, issue, advance, ask, IsOfClass};
ghost use Rattle.hz_pipeline_model.specs.Traces.TraceNames.{TraceNames, query_place};
ghost use Rattle.hz_pipeline_model.specs.Accepting.Asking.{IsOfQuery};
ghost use Rattle.hz_pipeline_model.specs.Traces.Traces.{line_says, skipped, says, wrong, bad_line, unknown_class, too_many_advances, unknown_unit, Trace, TraceFault, TraceFaultAt, event_lines};
ghost use Rattle.hz_pipeline_model.specs.Traces.TraceLines.{SaysEvent, IsWords, IsSkipped, row_names};

/// A trace text has at most one list of events, and each event has one line.
pub fn one_list_of_events()
    ensures events { (names : TraceNames) (text : List ℕ) (a b : List Event) → Trace names text a → Trace names text b → a ≡ b }
    ensures lines { (names : TraceNames) (text : List ℕ) (events : List Event) → Trace names text events → length (event_lines names 1 (lines_of text)) ≡ length events }
{}

/// The events of a trace are of its classes and of its query units.
pub fn events_of_traces_are_named()
    ensures classes { (names : TraceNames) (text : List ℕ) (events : List Event) → Trace names text events → All (IsOfClass (length names.classes)) events }
    ensures queries { (names : TraceNames) (text : List ℕ) (events : List Event) → Trace names text events → All (IsOfQuery names.queries) events }
{}

/// A trace text has at most one fault, at one line.
pub fn one_fault_of_traces()
    ensures { (names : TraceNames) (text : List ℕ) (f g : TraceFault) (m n : ℕ) → TraceFaultAt names text f m → TraceFaultAt names text g n → (f ≡ g) × (m ≡ n) }
{}

/// No text has both events and a fault.
pub fn events_or_fault()
    ensures { (names : TraceNames) (text : List ℕ) (events : List Event) (fault : TraceFault) (number : ℕ) → Trace names text events → TraceFaultAt names text fault number → ⊥ }
{}

/// Every text has events or a fault.
pub fn events_of_every_text()
    ensures { (names : TraceNames) (text : List ℕ) → ((events : List Event) × Trace names text events) ⊎ ((fault : TraceFault) × (number : ℕ) × TraceFaultAt names text fault number) }
{}

/// The line of an event says that event, and the lines of events ascend.
pub fn events_stand_in_their_lines()
    ensures says { (names : TraceNames) (text : List ℕ) (events : List Event) → Trace names text events → (place number : ℕ) (event : Event) → slice_get events place ≡ Some event → slice_get (event_lines names 1 (lines_of text)) place ≡ Some number → SaysEvent names text number event }
    ensures ascend { (names : TraceNames) (text : List ℕ) → AllPairs (λ m n. m < n) (event_lines names 1 (lines_of text)) }
{}

/// A line says an event exactly where it is a margin, `issue`, `advance` or `ask`, a gap, a name or digits, and a margin. It says
/// nothing exactly where it is a margin, or a margin and what begins with `;`. Any other line is wrong.
pub fn lines_of_traces()
    ensures issue { (names : TraceNames) (line : List ℕ) (class : ℕ) → (line_says names line ≡ says (issue class)) ↔ ((name : List ℕ) × IsWords line (codes "issue") name × IsTrue (is_name name) × (place_of name names.classes ≡ Some class)) }
    ensures advance { (names : TraceNames) (line : List ℕ) (cycles : ℕ) → (line_says names line ≡ says (advance cycles)) ↔ ((digits : List ℕ) × IsWords line (codes "advance") digits × (number_of digits ≡ Some cycles)) }
    ensures skipped { (names : TraceNames) (line : List ℕ) → (line_says names line ≡ skipped) ↔ IsSkipped line }
    ensures unknown { (names : TraceNames) (line : List ℕ) → (line_says names line ≡ wrong unknown_class) ↔ ((name : List ℕ) × IsWords line (codes "issue") name × IsTrue (is_name name) × (place_of name names.classes ≡ None)) }
    ensures ask { (names : TraceNames) (line : List ℕ) (automaton query : ℕ) → (line_says names line ≡ says (ask automaton query)) ↔ ((name : List ℕ) × IsWords line (codes "ask") name × IsTrue (is_name name) × (query_place names name ≡ Some (automaton, query))) }
    ensures no_query { (names : TraceNames) (line : List ℕ) → (line_says names line ≡ wrong unknown_unit) ↔ ((name : List ℕ) × IsWords line (codes "ask") name × IsTrue (is_name name) × (query_place names name ≡ None)) }
    ensures other { (names : TraceNames) (line : List ℕ) → line_says names line ≡ wrong too_many_advances → ⊥ }
{}

/// What is found for a name is the place of a query unit that has it, and nothing exactly where none has it. Where query
/// units have names of their own, each is found at its place.
pub fn places_of_queries()
    ensures named { (names : TraceNames) (name : List ℕ) (automaton query : ℕ) → query_place names name ≡ Some (automaton, query) → slice_get (slice_index_or names.queries automaton []) query ≡ Some name }
    ensures none { (names : TraceNames) (name : List ℕ) → (query_place names name ≡ None) ↔ ((automaton query : ℕ) → slice_get (slice_index_or names.queries automaton []) query ≡ Some name → ⊥) }
    ensures placed { (names : TraceNames) → AllPairs (λ a b. a ≢ b) (flat_map (λ units. units) names.queries) → (name : List ℕ) (automaton query : ℕ) → slice_get (slice_index_or names.queries automaton []) query ≡ Some name → query_place names name ≡ Some (automaton, query) }
{}

/// Blanks and carriage returns at both ends of a line are dropped, and blanks alone stand between its words; an empty
/// line and one that begins with `;` say nothing.
pub fn trace_line_rows()
    ensures issue_line { line_says row_names (codes " issue\t x\r") ≡ says (issue 0) }
    ensures advance_line { line_says row_names (codes "advance 007") ≡ says (advance 7) }
    ensures blank { line_says row_names (codes "\t \r") ≡ skipped }
    ensures comment { line_says row_names (codes " \r;issue x") ≡ skipped }
    ensures other_class { line_says row_names (codes "issue y") ≡ wrong unknown_class }
    ensures return_between { line_says row_names (codes "issue\r x") ≡ wrong bad_line }
    ensures three_words { line_says row_names (codes "issue x x") ≡ wrong bad_line }
    ensures one_word { line_says row_names (codes "advance") ≡ wrong bad_line }
    ensures other_word { line_says row_names (codes "stall 1") ≡ wrong bad_line }
    ensures ask_line { line_says row_names (codes "\task  b") ≡ says (ask 1 0) }
    ensures later_unit { line_says row_names (codes "ask c") ≡ says (ask 1 1) }
    ensures other_unit { line_says row_names (codes "ask x") ≡ wrong unknown_unit }
    ensures no_unit { line_says row_names (codes "ask a,b") ≡ wrong bad_line }
{}
