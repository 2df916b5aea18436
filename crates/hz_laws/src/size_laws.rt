//! How long tables texts are.

ghost use Rattle.std.specs.Prelude.{◌≡◌, ◌≤◌, ◌+◌, ℕ, List, false, length, map, All};
ghost use Rattle.std.specs.List.{sum_by};
ghost use Rattle.hz_description_model.specs.Reading.Limits.{description_limit};
ghost use Rattle.hz_base_model.specs.Forms.Trees.{Trees};
ghost use Rattle.hz_base_model.specs.Forms.Forms as texts;
ghost use Rattle.hz_description_model.specs.Reading.Descriptions.{Options, Description};
ghost use Rattle.hz_description_model.specs.Reading.DescriptionForms.{Reads};
ghost use Rattle.hz_description_model.specs.Check.Places.{Known, class_names};
ghost use Rattle.hz_description_model.specs.Check.CheckedParts.{AutomatonParts, ClassParts, automaton_names, automata_of, class_parts};
ghost use Rattle.hz_pipeline_model.specs.Tables.StateLimits.{state_limit};
ghost use Rattle.hz_pipeline_model.specs.Tables.Machines.{Machine, IsMachine};
ghost use Rattle.hz_pipeline_model.specs.Compiling.Compiled.{Report, IsCompiled, shows_states};
ghost use Rattle.hz_tabtext_model.specs.Texts.{spelled};
ghost use Rattle.hz_tabtext_model.specs.Said.{tables_said};
ghost use Rattle.hz_laws.specs.Sizes.Extents.{bytes_of_strings, bytes_of_names, unnamed_limit};
ghost use Rattle.hz_description_model.specs.Check.CheckedShape.{AskNothingUnderNdfa};

/// No part of a compiled machine has more rows than an automaton may have states.
pub fn rows_are_few()
    ensures { (options : Options) (automata : List AutomatonParts) (classes : List ClassParts) (m : Machine) (reports : List Report) → AskNothingUnderNdfa options.ndfa automata → IsMachine m → IsCompiled options automata classes m reports → All (λ part. length part.rows ≤ state_limit) m.parts }
{}

/// What is said of a compiled machine has at most `unnamed_limit` bytes more than the names of its classes, automata and asks, unless both
/// `v` and `no-minimization` ask for its states.
pub fn lines_are_short()
    ensures { (options : Options) (automata : List AutomatonParts) (classes : List ClassParts) (m : Machine) (reports : List Report) → AskNothingUnderNdfa options.ndfa automata → IsMachine m → IsCompiled options automata classes m reports → shows_states options ≡ false → length (spelled (tables_said options automata reports m)) ≤ unnamed_limit + bytes_of_names m }
{}

/// The strings of a text of forms together are no longer than the text.
pub fn strings_stand_in_their_text()
    ensures { (text : List ℕ) (forms : Trees) → texts.Reads text forms → bytes_of_strings forms ≤ length text }
{}

/// The names of a description's classes, automata and units together are no longer than the strings of its forms, and than a dash
/// beside them where no automaton has a name.
pub fn names_stand_in_strings()
    ensures { (forms : Trees) (d : Description) → Reads forms d → sum_by length (class_names d) + sum_by length (automaton_names d) + sum_by (λ u. length u.name) d.units ≤ bytes_of_strings forms + 1 }
{}

/// What is said of a compiled description is short, unless both `v` and `no-minimization` ask for its states: it has at most
/// `unnamed_limit` bytes and one more than the description, and so no more than a tables text may have.
pub fn tables_texts_are_short()
    ensures size { (bytes : List ℕ) (read : Trees) (d : Description) (known : Known) (m : Machine) (reports : List Report) → texts.Reads bytes read → Reads read d → AskNothingUnderNdfa d.options.ndfa (automata_of d) → IsCompiled d.options (automata_of d) (map (class_parts d known) d.classes) m reports → IsMachine m → shows_states d.options ≡ false → length (spelled (tables_said d.options (automata_of d) reports m)) ≤ unnamed_limit + (length bytes + 1) }
    ensures limit { (bytes : List ℕ) (read : Trees) (d : Description) (known : Known) (m : Machine) (reports : List Report) → length bytes ≤ description_limit → texts.Reads bytes read → Reads read d → AskNothingUnderNdfa d.options.ndfa (automata_of d) → IsCompiled d.options (automata_of d) (map (class_parts d known) d.classes) m reports → IsMachine m → shows_states d.options ≡ false → length (spelled (tables_said d.options (automata_of d) reports m)) ≤ 536870912 }
{}
