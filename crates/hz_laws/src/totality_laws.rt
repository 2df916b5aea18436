//! What there is: for every automaton within its limits a table, for every table a least one, and for every description within its
//! limits a machine. No definition of its own.

ghost use Rattle.std.specs.Prelude.{◌≡◌, ℕ, ◌≤◌, List, [], All, map, length};
ghost use Rattle.hz_base_model.specs.Pairs.{Pair};
ghost use Rattle.hz_pipeline_model.specs.Accepting.Replay.{Pipeline, alternatives_at};
ghost use Rattle.hz_description_model.specs.Reading.DescriptionShape.{IsWellFormed};
ghost use Rattle.hz_description_model.specs.Reading.Descriptions.{Description};
ghost use Rattle.hz_description_model.specs.Check.CheckFaults.{IsSound};
ghost use Rattle.hz_description_model.specs.Check.CheckedParts.{automata_of, class_parts};
ghost use Rattle.hz_description_model.specs.Check.Places.{Known};
ghost use Rattle.hz_pipeline_model.specs.Tables.Apart.{WalkTheSame};
ghost use Rattle.hz_pipeline_model.specs.Tables.Machines.{Machine, IsMachine};
ghost use Rattle.hz_pipeline_model.specs.Tables.Tables.{IsTable, Table};
ghost use Rattle.hz_pipeline_model.specs.Least.Normal.{IsNormal};
ghost use Rattle.hz_pipeline_model.specs.Reaching.Built.{IsAutomaton};
ghost use Rattle.hz_pipeline_model.specs.Reaching.Counts.{CountIsAtMost, states};
ghost use Rattle.hz_pipeline_model.specs.Compiling.Compiled.{IsCompiled, Report};
ghost use Rattle.hz_pipeline_model.specs.Compiling.DescriptionLimits.{AllKeepLimits};
ghost use Rattle.hz_pipeline_model.specs.Single.Reported.{ListsAscending};
ghost use Rattle.hz_tabtext_model.specs.Said.{IsInRange};

/// Every pipeline whose reached states are at most some number has an automaton: a table that walks just what it accepts, whose rows
/// are its states, numbered breadth-first.
pub fn every_pipeline_has_an_automaton()
    ensures { (m : Pipeline ℕ) (columns : ℕ) → ((k : ℕ) → columns ≤ k → alternatives_at m k ≡ []) → (n : ℕ) → CountIsAtMost m columns states n → (table : Table) × (grids : List (List (Pair ℕ))) × (sets : List (List ℕ)) × (parents : List (ℕ × ℕ)) × IsAutomaton m columns table grids sets parents }
{}

/// Every table has one that walks the same, whose states are apart and numbered breadth-first, and which has no more rows.
pub fn every_table_has_a_least_one()
    ensures { (table : Table) (columns : ℕ) → IsTable table columns → (least : Table) × IsNormal least columns × WalkTheSame table least × (length least ≤ length table) }
{}

/// Every description that can be read, has no fault and whose automata keep their limits has a machine and reports that are compiled of
/// it, which a text can say, with the pairs of each grid that is shown in ascending order.
pub fn descriptions_within_limits_have_machines()
    ensures { (d : Description) (known : Known) → IsWellFormed d → IsSound d known → AllKeepLimits d known → (m : Machine) × (reports : List Report) × IsCompiled d.options (automata_of d) (map (class_parts d known) d.classes) m reports × IsMachine m × IsInRange (automata_of d) reports m × All ListsAscending reports }
{}
