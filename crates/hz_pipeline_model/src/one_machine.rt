//! What is compiled of a description is one machine, and the same is reported of it.

ghost use Rattle.std.specs.Prelude.{◌≡◌, List, All};
ghost use Rattle.hz_description_model.specs.Reading.Descriptions.{Options};
ghost use Rattle.hz_description_model.specs.Check.CheckedParts.{AutomatonParts, ClassParts};
ghost use Rattle.hz_pipeline_model.specs.Tables.Machines.{Machine, IsMachine};
ghost use Rattle.hz_pipeline_model.specs.Compiling.Compiled.{Report, IsCompiled};
ghost use Rattle.hz_pipeline_model.specs.Single.Reported.{AllTellTheSame, ListsAscending};

/// Whatever is compiled of automata and classes is one machine, minimised or not, and the same is reported of it: counts, where
/// each state is read first, and its grids. How the pairs of a grid are listed is left open; where they ascend, reports are
/// equal too.
pub fn compiled_machines_are_one()
    ensures machine { (options : Options) (automata : List AutomatonParts) (classes : List ClassParts) (one other : Machine) (reports others : List Report) → IsMachine one → IsMachine other → IsCompiled options automata classes one reports → IsCompiled options automata classes other others → one ≡ other }
    ensures reported { (options : Options) (automata : List AutomatonParts) (classes : List ClassParts) (one other : Machine) (reports others : List Report) → IsMachine one → IsMachine other → IsCompiled options automata classes one reports → IsCompiled options automata classes other others → AllTellTheSame reports others }
    ensures reports { (options : Options) (automata : List AutomatonParts) (classes : List ClassParts) (one other : Machine) (reports others : List Report) → IsMachine one → IsMachine other → IsCompiled options automata classes one reports → IsCompiled options automata classes other others → All ListsAscending reports → All ListsAscending others → reports ≡ others }
{}
