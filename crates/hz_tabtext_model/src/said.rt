//! Laws of what is said of compiled descriptions.

ghost use Rattle.std.specs.Prelude.{ℕ, List};
ghost use Rattle.hz_description_model.specs.Reading.Descriptions.{Options};
ghost use Rattle.hz_description_model.specs.Check.CheckedParts.{AutomatonParts, ClassParts, BypassParts};
ghost use Rattle.hz_description_model.specs.Check.CheckedShape.{IsKept};
ghost use Rattle.hz_pipeline_model.specs.Compiling.Compiled.{Report, IsCompiled};
ghost use Rattle.hz_pipeline_model.specs.Tables.Machines.{Machine, IsMachine};
ghost use Rattle.hz_tabtext_model.specs.Texts.{TableText, spelled};
ghost use Rattle.hz_tabtext_model.specs.Said.{tables_said, CanBeSaid, IsInRange};

/// What is said of a compiled description stands for its machine, whatever is reported beside the rows.
pub fn compiled_texts_stand_for_machines()
    ensures { (options : Options) (automata : List AutomatonParts) (reports : List Report) (m : Machine) → CanBeSaid options automata reports m → IsMachine m → IsInRange automata reports m → TableText (spelled (tables_said options automata reports m)) m }
{}

/// A machine that is compiled of what a check gives can be said.
pub fn compiled_machines_can_be_said()
    ensures { (options : Options) (automata : List AutomatonParts) (classes : List ClassParts) (bypasses : List BypassParts) (attributes : List (List ℕ × List (List ℕ))) (m : Machine) (reports : List Report) → IsKept automata classes bypasses attributes → IsMachine m → IsCompiled options automata classes m reports → CanBeSaid options automata reports m }
{}
