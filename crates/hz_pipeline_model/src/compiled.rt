//! Laws of compiled automata.

ghost use Rattle.std.specs.Prelude.{◌≡◌, ◌↔◌, ◌+◌, ◌<◌, ℕ, Bool, List, length, map, take, All, IsSome, None, true, Some};
ghost use Rattle.hz_base_model.specs.Pairs.{Pair};
ghost use Rattle.hz_description_model.specs.Reservations.Sets.{Statement};
ghost use Rattle.hz_pipeline_model.specs.Accepting.Events.{Event, IsOfClass};
ghost use Rattle.hz_pipeline_model.specs.Accepting.Fitting.{AskTheSame};
ghost use Rattle.hz_pipeline_model.specs.Accepting.Replay.{Pipeline, Treatment, Accepted, FirstRefused, first_fit};
ghost use Rattle.hz_pipeline_model.specs.Accepting.Restricted.{restricted};
ghost use Rattle.hz_description_model.specs.Reading.Descriptions.{Description};
ghost use Rattle.hz_description_model.specs.Check.CheckFaults.{IsSound};
ghost use Rattle.hz_description_model.specs.Check.Places.{Known};
ghost use Rattle.hz_description_model.specs.Check.CheckedParts.{automaton_count, automata_of, class_parts, queries_in};
ghost use Rattle.hz_pipeline_model.specs.Pipelines.Pipelines.{pipeline_with};
ghost use Rattle.hz_pipeline_model.specs.Tables.Machines.{Machine, Part, machine_walk, states_tell};
ghost use Rattle.hz_pipeline_model.specs.Reaching.Built.{IsAutomaton};
ghost use Rattle.hz_pipeline_model.specs.Reaching.Columns.{pipeline_on};
ghost use Rattle.hz_pipeline_model.specs.Reaching.Counts.{Count};
ghost use Rattle.hz_pipeline_model.specs.Compiling.AutomatonPipelines.{automaton_pipeline, query_unit};
ghost use Rattle.hz_pipeline_model.specs.Compiling.ClassColumns.{IsColumns};
ghost use Rattle.hz_pipeline_model.specs.Compiling.Compiled.{Report, IsCompiled, IsFirstPast};
ghost use Rattle.hz_pipeline_model.specs.Compiling.DescriptionLimits.{AllKeepLimits, IsFirstPastLimit};
ghost use Rattle.hz_pipeline_model.specs.Compiling.CompiledParts.{WalksAccepted, TellsWhatIsLeft, IsNumbered, IsWithinLimits, IsPastLimit, TellsWhatIsHeld};
ghost use Rattle.hz_pipeline_model.specs.Compiling.Moved.{IsMoved};
ghost use Rattle.hz_pipeline_model.specs.Tables.Tables.{Table};
ghost use Rattle.hz_pipeline_model.specs.Tables.AskColumns.{HasAsks};
ghost use Rattle.hz_pipeline_model.specs.Reaching.Present.{MarksPresent};
ghost use Rattle.hz_pipeline_model.specs.Accepting.Asking.{IsHeld};

/// A part that takes each class to the column of its list, and whose table is an automaton of the columns under
/// statements that ask the same, with columns for asks, walks what the pipeline of the classes accepts and nothing else; its
/// states tell what is left, and are numbered breadth-first. If in the first treatment each state's asks are marked by what
/// its grid has in cycle 0, they tell what is held.
pub fn automata_of_columns_are_of_classes()
    ensures walks { (treatment : Treatment) (statements rules : List (Statement ℕ)) → AskTheSame statements rules → (lists columns : List (List (List (Pair ℕ)))) (part : Part) (table : Table) (marks : ℕ → ℕ → Bool) (grids : List (List (Pair ℕ))) (sets : List (List ℕ)) (parents : List (ℕ × ℕ)) → IsColumns lists columns part.map → length columns ≡ part.columns → HasAsks table part.rows part.columns (length part.asks) marks → IsAutomaton (pipeline_on treatment rules columns) part.columns table grids sets parents → WalksAccepted (length lists) (pipeline_on treatment statements lists) part }
    ensures tells { (treatment : Treatment) (statements rules : List (Statement ℕ)) → AskTheSame statements rules → (lists columns : List (List (List (Pair ℕ)))) (part : Part) (table : Table) (marks : ℕ → ℕ → Bool) (grids : List (List (Pair ℕ))) (sets : List (List ℕ)) (parents : List (ℕ × ℕ)) → IsColumns lists columns part.map → length columns ≡ part.columns → HasAsks table part.rows part.columns (length part.asks) marks → IsAutomaton (pipeline_on treatment rules columns) part.columns table grids sets parents → TellsWhatIsLeft (length lists) (pipeline_on treatment statements lists) part }
    ensures numbered { (treatment : Treatment) (statements rules : List (Statement ℕ)) → AskTheSame statements rules → (lists columns : List (List (List (Pair ℕ)))) (part : Part) (table : Table) (marks : ℕ → ℕ → Bool) (grids : List (List (Pair ℕ))) (sets : List (List ℕ)) (parents : List (ℕ × ℕ)) → IsColumns lists columns part.map → length columns ≡ part.columns → HasAsks table part.rows part.columns (length part.asks) marks → IsAutomaton (pipeline_on treatment rules columns) part.columns table grids sets parents → IsNumbered part }
    ensures held { (treatment : Treatment) (statements rules : List (Statement ℕ)) → AskTheSame statements rules → (lists columns : List (List (List (Pair ℕ)))) (part : Part) (table : Table) (marks : ℕ → ℕ → Bool) (grids : List (List (Pair ℕ))) (sets : List (List ℕ)) (parents : List (ℕ × ℕ)) → IsColumns lists columns part.map → length columns ≡ part.columns → HasAsks table part.rows part.columns (length part.asks) marks → IsAutomaton (pipeline_on treatment rules columns) part.columns table grids sets parents → treatment ≡ first_fit → (queries : List ℕ) → length queries ≡ length part.asks → MarksPresent grids sets queries marks → TellsWhatIsHeld (length lists) (pipeline_on treatment statements lists) queries part }
{}

/// No count of an automaton is within its limit and past it.
pub fn counts_are_within_or_past()
    ensures { (lists : List (List (List (Pair ℕ)))) (shown : Bool) (queries : ℕ) (m : Pipeline ℕ) (kind : Count) → IsWithinLimits shown lists queries m → IsPastLimit shown lists queries m kind → ⊥ }
{}

/// What a check gives of an automaton is its pipeline: the classes keep their numbers.
pub fn checked_automata_are_their_pipelines()
    ensures { (d : Description) (known : Known) (a : ℕ) → a < automaton_count d → IsMoved (λ k. k) (restricted a (pipeline_with d known)) (automaton_pipeline d.options (automata_of d) (map (class_parts d known) d.classes) a) }
{}

/// A description that keeps the two rules accepts events exactly where the pipeline of each automaton does that a check
/// gives of it.
pub fn descriptions_are_their_automata()
    ensures { (d : Description) (known : Known) → IsSound d known → (t : List Event) → Accepted (pipeline_with d known) t ↔ ((a : ℕ) → a < automaton_count d → Accepted (automaton_pipeline d.options (automata_of d) (map (class_parts d known) d.classes) a) t) }
{}

/// The machine that is compiled of a description walks just the events of its classes that the description accepts, and
/// the first that it does not walk is the first refused. After events that it walks a query unit is reported to be reserved exactly
/// where the description holds it in the present cycle. Its automata then keep their limits, and where a limit is reported, it is that of the first automaton past one.
pub fn compiled_machines_are_descriptions()
    ensures walks { (d : Description) (known : Known) → IsSound d known → (m : Machine) (reports : List Report) → IsCompiled d.options (automata_of d) (map (class_parts d known) d.classes) m reports → (t : List Event) → All (IsOfClass (length d.classes)) t → IsSome (machine_walk m t) ↔ Accepted (pipeline_with d known) t }
    ensures held { (d : Description) (known : Known) → IsSound d known → (m : Machine) (reports : List Report) → IsCompiled d.options (automata_of d) (map (class_parts d known) d.classes) m reports → (t : List Event) → All (IsOfClass (length d.classes)) t → (states : List ℕ) → machine_walk m t ≡ Some states → (a query : ℕ) → a < automaton_count d → query < length (queries_in d a) → (states_tell m states a query ≡ true) ↔ IsHeld (pipeline_with d known) t (query_unit d a query) }
    ensures refused { (d : Description) (known : Known) → IsSound d known → (m : Machine) (reports : List Report) → IsCompiled d.options (automata_of d) (map (class_parts d known) d.classes) m reports → (t : List Event) → All (IsOfClass (length d.classes)) t → (i : ℕ) → i < length t → IsSome (machine_walk m (take i t)) → machine_walk m (take (i + 1) t) ≡ None → FirstRefused (pipeline_with d known) t i }
    ensures keep { (d : Description) (known : Known) (m : Machine) (reports : List Report) → IsCompiled d.options (automata_of d) (map (class_parts d known) d.classes) m reports → AllKeepLimits d known }
    ensures past { (d : Description) (known : Known) (a : ℕ) (kind : Count) → IsFirstPast d.options (automata_of d) (map (class_parts d known) d.classes) a kind → IsFirstPastLimit d known a }
{}
